// The refusals of Hurbezki: every call that is given bad input answers one of these and nothing else happens.
// docs/REFUSALS.md says of each who meets it, when, and what memory holds after it.
#![tactic(auto)]

ghost use Rattle.std.specs.Prelude.{◌≡◌, Some};
ghost use Rattle.std.specs.Fmt.{decimal};
ghost use Rattle.refusal.specs.Number.{number};
ghost use Rattle.refusal.specs.Verdict.{code};

use std::error::Error;
use std::fmt;

#[derive(Clone, Copy, Debug, PartialEq, Eq)]
pub enum Refusal {
    // no code cells, or too many
    CodeCount = 1,
    // too few or too many stations, or guarantees and limits that do not fit the codes
    StationTable = 2,
    // no register cells, or too many
    RegisterSize = 3,
    // the site or the block number is zero
    BlockNumber = 4,
    // the key is too short or too long for its compression
    KeyLength = 5,
    // the station is not in the table
    UnknownStation = 6,
    // nothing was asked for
    ZeroCount = 7,
    // more is given back than the station has reserved
    MoreThanReserved = 8,
    // the station would have more codes than its limit
    OverLimit = 9,
    // the free codes are owed to the other stations' guarantees
    OwedToOthers = 10,
    // the station has no reserved code to draw
    NothingReserved = 11,
    // the slip is of another block, or its code is not drawn by its station
    SlipNotDrawn = 12,
    // the header or the message is too long for a card
    RecordLength = 13,
    // every register cell is in use
    RegisterFull = 14,
    // the lengths in a card image do not add up
    ImageLength = 15,
    // another compression than the one that is wanted, or none at all
    KindMismatch = 16,
    // a card image names a site, block, code or station that cannot be
    ImageNumber = 17,
    // memory lent for a result, or a block to compress, has the wrong length
    PlaceLength = 18,
    // the register cell holds no card image
    CellNotIssued = 19,
    // the nonce is too short or too long
    NonceLength = 20,
    // the tag is too short or too long
    TagLength = 21,
    // the associated data or the message is too short or too long
    TextLength = 22,
    // the tag is not the one that sealing gives
    TagMismatch = 23,
}

// The number by which programs and other languages know a refusal.
impl From<Refusal> for u32 {
    ghost from_gives = { λ refusal n. n ≡ number refusal };

    fn from(refusal: Refusal) -> u32 {
        refusal as u32
    }
}

// A refusal is shown as its number.
impl fmt::Display for Refusal {
    ghost output = { λ refusal. Some (decimal (number refusal)) };

    fn fmt<W: fmt::Write>(&self, f: &mut fmt::Formatter<W>) -> fmt::Result {
        write!(f, "{}", u32::from(*self))
    }
}

impl Error for Refusal {}

// What a call answered as a number: 0 where it was accepted, else the number of its refusal.
pub fn code<A: Drop>(answer: Result<A, Refusal>) -> u32
    ensures { result ≡ code answer }
{
    match answer {
        Ok(_) => 0,
        Err(refusal) => u32::from(refusal),
    }
}
