// Tries a block: a request on each line of standard input, and its answer on a line of standard output.
// docs/TRIAL.md has the forms of the lines.
#![tactic(auto)]

mod request;
mod step;

use compression::Sha256;
use counter::{Block, CodeCell, Opening, RegisterCell, Station};
use request::parse;
use std::io;
use std::io::{BufRead, BufReader};
use step::step;

// The block: ten codes for two stations, which can count on four codes each and take six.
const SITE: u32 = 1;

const BLOCK: u32 = 1;

const KEY: [u8; 32] = [0; 32];

const STATION: Station = Station {
    guarantee: 4,
    limit: 6,
};

fn main(rt: HostRuntime) -> io::Result<()> {
    let mut codes = [CodeCell::FREE; 10];
    let mut register = [RegisterCell::BLANK; 4];
    let stations = [STATION; 2];
    let mut block = Block::open::<Sha256>(Opening {
        site: SITE,
        block: BLOCK,
        key: &KEY,
        codes: &mut codes,
        register: &mut register,
        stations: &stations,
    });
    for line in BufReader::new(rt.alloc(), rt.stdin())?.split(rt.alloc(), b'\n') {
        let line = line?;
        let answer = step(&mut block, parse(line.as_slice()));
        println!(rt; "{answer}")?;
    }
    Ok(())
}
