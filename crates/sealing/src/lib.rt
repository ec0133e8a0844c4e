// Sealing and opening of messages: OMD over any keyed compression.
#![tactic(auto)]

mod bytes;
mod calls;
mod doubling;
mod key;
mod masks;
mod omd;

pub use calls::{open, seal};
pub use doubling::double;
