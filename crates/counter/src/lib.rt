// The code book: a block of codes that stations reserve, draw and void, so that no two stations ever hold the same code.
#![tactic(auto)]

mod block;
mod cell;
mod opening;
mod slip;
mod station;
mod tables;

pub use block::Block;
pub use cell::{CodeCell, RegisterCell, Status};
pub use opening::{Opening, check};
pub use slip::Slip;
pub use station::Station;
