// Card images: building one, looking at one, opening one.
#![tactic(auto)]

mod build;
mod label;
mod layout;
mod open;
mod reader;

pub use build::build_image;
pub use label::Label;
pub use open::{open_image, open_image_by_kind};
pub use reader::{ImageReader, Part, Parts};
