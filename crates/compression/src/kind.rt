// The kinds of compression that cards and calls know by number.
ghost use Rattle.std.specs.Prelude.{◌≡◌};
ghost use Rattle.compression.specs.Kinds.{kind_numbered};

use crate::{Blake2b, Compression, Sha256};
use refusal::Refusal;

// A `match` on it picks the instance of a generic function. It stands where it is needed: one place for all such functions
// would take a trait with a method for each.
#[derive(Clone, Copy, Debug, PartialEq, Eq)]
pub enum Kind {
    Sha256,
    Blake2b,
}

// The kind with a number. The numbers are asked of the compressions, so that the contract holds these to 1 and 2.
impl TryFrom<u32> for Kind {
    type Error = Refusal;

    ghost try_from_gives = { λ number answer. answer ≡ kind_numbered number };

    fn try_from(number: u32) -> Result<Kind, Refusal> {
        if number == u32::from(Sha256::KIND) {
            Ok(Kind::Sha256)
        } else if number == u32::from(Blake2b::KIND) {
            Ok(Kind::Blake2b)
        } else {
            Err(Refusal::KindMismatch)
        }
    }
}
