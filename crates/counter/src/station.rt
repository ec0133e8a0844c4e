// The stations of a block.
ghost use Rattle.std.specs.Prelude.{◌≡◌, ◌-◌, ◌≤◌, length, sum_by, zip};
ghost use Rattle.counter.specs.Opened.{breaks};

use crate::tables::Seat;

// An entry of the caller's table: a programming station, numbered from 1 by its place.
#[derive(Clone, Copy, Debug, PartialEq, Eq)]
pub struct Station {
    // so many codes it can always take, whatever the others do
    pub guarantee: u16,
    // more than this it can never have
    pub limit: u16,
}

impl Station {
    // Whether its guarantee is above its limit, or its limit above `n` codes.
    pub(crate) fn breaks(self, n: usize) -> bool
        ensures { result ≡ breaks n self }
    {
        self.guarantee > self.limit || usize::from(self.limit) > n
    }

    // What it lacks of its guarantee when it has taken so many codes.
    pub(crate) fn lacks(self, taken: u16) -> u16
        ensures { result ≡ self.guarantee - taken }
    {
        self.guarantee.saturating_sub(taken)
    }
}

// What stations lack of their guarantees, all together, where they have taken so many codes.
pub(crate) fn lacking(stations: &[Station], seats: &[Seat]) -> u32
    requires { length stations.now ≤ 8 }
    ensures { result ≡ sum_by (λ p. p.0.guarantee - p.1.taken) (zip stations.now seats.now) }
{
    stations
        .iter()
        .zip(seats)
        .map(|(s, seat)| u32::from(s.lacks(seat.taken)))
        .sum()
}
