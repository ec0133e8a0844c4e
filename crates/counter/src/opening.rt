// What a block is opened with, and whether it may be.
ghost use Rattle.std.specs.Prelude.{◌≡◌, ◌≤◌, length, sum_by};
ghost use Rattle.std.specs.List.{list_any};
ghost use Rattle.counter.specs.Opened.{no_size, breaks, unfit, check_verdict};
ghost use Rattle.counter.specs.Inside.{InOrder, Blank};

use crate::cell::{CodeCell, RegisterCell};
use crate::station::Station;
use compression::{Compression, key_tested};
use refusal::Refusal;

const MOST_CELLS: usize = 4096;

const MOST_STATIONS: usize = 8;

// What a block is opened with.
#[derive(Drop)]
pub struct Opening<'k, 'c, 'r, 's> {
    // the numbers of the site and of the block
    pub site: u32,
    pub block: u32,
    // the key that the block's cards are sealed with
    pub key: &'k [u8],
    // the cells lent to the block, until it is closed
    pub codes: &'c mut [CodeCell],
    pub register: &'r mut [RegisterCell],
    // numbered from 1
    pub stations: &'s [Station],
}

// No cells, or too many.
fn no_size(n: usize) -> bool
    ensures { result ≡ no_size n }
{
    n == 0 || n > MOST_CELLS
}

// A station breaks the rule.
fn some_breaks(n: usize, stations: &[Station]) -> bool
    ensures { result ≡ list_any (breaks n) stations.now }
{
    stations.iter().any(|s| s.breaks(n))
}

// What the stations are guaranteed, added up.
fn guaranteed(stations: &[Station]) -> usize
    requires { length stations.now ≤ 8 }
    ensures { result ≡ sum_by (λ s. s.guarantee) stations.now }
{
    stations.iter().map(|s| usize::from(s.guarantee)).sum()
}

// Too few or too many stations, or guarantees and limits that do not fit `n` codes.
fn unfit(n: usize, stations: &[Station]) -> bool
    ensures { result ≡ unfit n stations.now }
{
    if stations.is_empty() || stations.len() > MOST_STATIONS {
        return true;
    }
    some_breaks(n, stations) || guaranteed(stations) > n
}

// Answers the first refusal that applies to opening such a block. It changes nothing, and so takes cells that are lent to
// others as well, where an `Opening` has them alone.
pub fn check<C: Compression>(
    site: u32,
    block: u32,
    key: &[u8],
    codes: &[CodeCell],
    register: &[RegisterCell],
    stations: &[Station],
) -> Result<(), Refusal>
    ensures { result ≡ check_verdict (record { kind = C.Compression.KIND; shortest = C.Compression.SHORTEST_KEY; longest = C.Compression.LONGEST_KEY; site = site; number = block; key = key.now; codes = codes.now; register = register.now; stations = stations.now }) }
{
    if no_size(codes.len()) {
        return Err(Refusal::CodeCount);
    }
    if unfit(codes.len(), stations) {
        return Err(Refusal::StationTable);
    }
    if no_size(register.len()) {
        return Err(Refusal::RegisterSize);
    }
    if site == 0 || block == 0 {
        return Err(Refusal::BlockNumber);
    }
    key_tested::<C>(key)
}

// Makes all codes free, chained in order.
pub(crate) fn fill(codes: &mut [CodeCell])
    requires { length codes.old ≤ 4096 }
    ensures { InOrder codes.new }
{
    let n = codes.len();
    for (i, cell) in codes.iter_mut().enumerate() {
        let next = if i + 1 < n { i as u16 + 2 } else { 0 };
        *cell = CodeCell {
            next,
            ..CodeCell::FREE
        };
    }
}

// Makes all register cells zero.
pub(crate) fn wipe(register: &mut [RegisterCell])
    ensures { Blank register.new }
{
    register.fill(RegisterCell::BLANK);
}
