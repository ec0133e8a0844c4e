// Known answers: a request on each line of standard input, and its answer on a line of standard output.
// docs/VECTORS.md has the forms of the lines.
#![tactic(auto)]

mod answer;
mod compress;
mod hex;
mod request;
mod seal;

use answer::answer;
use std::io;
use std::io::{BufRead, BufReader};

fn main(rt: HostRuntime) -> io::Result<()> {
    for line in BufReader::new(rt.alloc(), rt.stdin())?.split(rt.alloc(), b'\n') {
        let line = line?;
        let text = answer(rt.alloc(), line.as_slice())?;
        println!(rt; "{text}")?;
    }
    Ok(())
}
