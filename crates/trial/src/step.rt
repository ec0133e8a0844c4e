// What is answered for a request.
ghost use Rattle.std.specs.Prelude.{◌≡◌, Some};
ghost use Rattle.counter.specs.Shown.{view};
ghost use Rattle.trial.specs.Answer.{printed, DrawAndVoid, Stepped};

use crate::request::Request;
use counter::Block;
use refusal::{Refusal, code};
use std::fmt;

// What a request is answered: its letter, and what the block answered.
#[derive(Clone, Copy, Debug)]
pub(crate) struct Answer {
    letter: char,
    outcome: Result<u32, Refusal>,
}

impl fmt::Display for Answer {
    ghost output = { λ a. Some (printed a) };

    fn fmt<W: fmt::Write>(&self, f: &mut fmt::Formatter<W>) -> fmt::Result {
        let number = code(self.outcome);
        let value = self.outcome.unwrap_or(0);
        write!(f, "{} {number} {value}", self.letter)
    }
}

// Draws a code and makes it void: answers the code.
fn draw_and_void(block: &mut Block<'_, '_, '_, '_>, station: u32) -> Result<u32, Refusal>
    ensures { DrawAndVoid (view block.old.t) station result (view block.new.t) }
{
    let slip = block.draw(station)?;
    block.void(slip)
}

// Makes the calls that a line asks for, and answers them.
pub(crate) fn step(block: &mut Block<'_, '_, '_, '_>, request: Option<Request>) -> Answer
    ensures { Stepped (view block.old.t) request result (view block.new.t) }
{
    let (letter, outcome) = match request {
        Some(Request::Reserve { station, count }) => ('R', block.reserve(station, count)),
        Some(Request::GiveBack { station, count }) => ('G', block.give_back(station, count)),
        Some(Request::Void { station }) => ('V', draw_and_void(block, station)),
        None => ('?', Ok(0)),
    };
    Answer { letter, outcome }
}
