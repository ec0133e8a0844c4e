// The pace of the code book, for bench/run. With the argument `run` it prints a line of nanoseconds for each of 31
// samples; without, nothing. No part of the product.
#![tactic(auto)]

use anyhow::Context;
use compression::Sha256;
use counter::{Block, CodeCell, Opening, RegisterCell, Station};
use refusal::Refusal;
use std::env;
use std::time::Instant;

const SAMPLES: u32 = 31;

// So many fresh blocks make one sample.
const BLOCKS: u32 = 200;

// Not inlined, so that the same code reserves one and 1,000, of a block that the compiler knows nothing of.
#[inline(never)]
fn reserve(block: &mut Block, count: u32) -> Result<(), Refusal> {
    block.reserve(1, count)?;
    Ok(())
}

// 16 times: a code is reserved, drawn and voided
fn turns(block: &mut Block) -> Result<(), Refusal> {
    for _ in 0..16 {
        reserve(block, 1)?;
        let slip = block.draw(1)?;
        block.void(slip)?;
    }
    Ok(())
}

// 1,000 times a code is reserved
fn singles(block: &mut Block) -> Result<(), Refusal> {
    for _ in 0..1000 {
        reserve(block, 1)?;
    }
    Ok(())
}

// The nanoseconds that the work takes on a fresh block over these cells. Opening it is not timed.
fn once<F: Fn(&mut Block) -> Result<(), Refusal>>(
    rt: &HostRuntime,
    codes: &mut [CodeCell],
    limit: u16,
    work: &F,
) -> anyhow::Result<u128>
    requires { F.IsAlwaysCallable work.now }
{
    let key = [0; 32];
    let mut register = [RegisterCell::BLANK];
    let stations = [Station {
        guarantee: 0,
        limit,
    }];
    let mut block = Block::open::<Sha256>(Opening {
        site: 1,
        block: 1,
        key: &key,
        codes,
        register: &mut register,
        stations: &stations,
    });
    let start = Instant::now(rt)?;
    let done = work(&mut block);
    let spent = start.elapsed(rt)?;
    done.context("a call was refused")?;
    Ok(spent.as_nanos())
}

// The nanoseconds that the work takes on `BLOCKS` fresh blocks of `n` codes.
fn sample<F: Fn(&mut Block) -> Result<(), Refusal>>(
    rt: &HostRuntime,
    n: u16,
    work: F,
) -> anyhow::Result<u128>
    requires { F.IsAlwaysCallable work }
{
    let mut codes = vec![in rt.alloc(); CodeCell::FREE; usize::from(n)]?;
    let mut sum = 0u128;
    for _ in 0..BLOCKS {
        let spent = once(rt, codes.as_mut_slice(), n, &work)?;
        sum = sum.saturating_add(spent);
    }
    Ok(sum)
}

fn run(rt: &HostRuntime) -> anyhow::Result<()> {
    for _ in 0..SAMPLES {
        // what reading the clock takes
        let nothing = sample(rt, 16, |_| Ok(()))?;
        let few = sample(rt, 16, turns)?;
        let many = sample(rt, 4096, turns)?;
        let singles = sample(rt, 4096, singles)?;
        let thousand = sample(rt, 4096, |block| reserve(block, 1000))?;
        println!(rt; "{nothing} {few} {many} {singles} {thousand}")?;
    }
    Ok(())
}

fn main(rt: HostRuntime) -> anyhow::Result<()> {
    if env::args(&rt)?
        .nth(1)
        .is_some_and(|word| word.as_str() == "run")
    {
        run(&rt)?;
    }
    Ok(())
}
