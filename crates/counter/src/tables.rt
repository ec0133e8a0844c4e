// What a block holds, and the small steps that its calls are made of.
ghost use Rattle.std.specs.Prelude.{◌≡◌, ◌+◌, ◌-◌, ◌<◌, ◌≤◌, length, ◌≢◌, slice_index, slice_index_or};
ghost use Rattle.counter.specs.Ledger.{Terms, Ledger, move, times, row_mark};
ghost use Rattle.counter.specs.Shown.{view, no_row, Sound};
ghost use Rattle.counter.specs.Opened.{given};
ghost use Rattle.counter.specs.Examples.{ExamplesHold};
ghost use Rattle.counter.specs.History.{Opened};
ghost use Rattle.counter.specs.Inside.{has_drawn, new_state, with_mark, with_row, with_taken, drawn_out, Matches, Kept};

use crate::cell::{CodeCell, RegisterCell, Status};
use crate::opening::{Opening, check, fill, wipe};
use crate::station::Station;
use chain::{Linked, pop_front, push_front};
use compression::Compression;

// What is kept of a row of codes: the first of them, and how many they are. Row 0 has the free codes, row k those that
// station k has reserved.
#[derive(Clone, Copy)]
pub struct Row {
    pub(crate) head: u16,
    pub(crate) count: u16,
}

impl Row {
    const EMPTY: Row = Row { head: 0, count: 0 };
}

// What is kept of a station: how many codes it has taken (reserved, drawn, issued or void), and its newest register cell.
#[derive(Clone, Copy)]
pub struct Seat {
    pub(crate) taken: u16,
    pub(crate) newest: u16,
}

impl Seat {
    const EMPTY: Seat = Seat {
        taken: 0,
        newest: 0,
    };
}

// What a block holds: what it was opened with, the cells lent to it, and counts, so that no call has to scan the cells.
#[derive(Drop)]
pub struct Tables<'k, 'c, 'r, 's> {
    // the kind of the compression it was opened with: a number, since anybody may write a compression
    kind: u8,
    pub(crate) site: u32,
    pub(crate) number: u32,
    key: &'k [u8],
    pub(crate) codes: &'c mut [CodeCell],
    pub(crate) register: &'r mut [RegisterCell],
    pub(crate) table: &'s [Station],
    // how many stations take part: all of the table, or none
    pub(crate) stations: u16,
    // by row number
    pub(crate) rows: [Row; 9],
    // by station number, entry 0 nobody's; apart from the rows, since row 0 is no station's, and the seats stay while codes
    // move
    pub(crate) seats: [Seat; 9],
}

// The status of the codes of a row.
fn row_status(row: u16) -> Status
    ensures { result ≡ (row_mark row).status }
{
    if row == 0 {
        Status::Free
    } else {
        Status::Reserved
    }
}

impl<'k, 'c, 'r, 's> Tables<'k, 'c, 'r, 's> {
    // The tables before any code is taken, for so many stations; `free` is the row of the free codes.
    fn new(
        kind: u8,
        opening: Opening<'k, 'c, 'r, 's>,
        stations: u16,
        free: Row,
    ) -> Tables<'k, 'c, 'r, 's>
        ensures { view result ≡ new_state (record { kind = kind; site = opening.entry.site; number = opening.entry.block; key = opening.entry.key.now; table = opening.entry.stations.now; stations = stations }) opening.entry.codes.now opening.entry.register.now free }
    {
        let mut rows = [Row::EMPTY; 9];
        rows[0] = free;
        Tables {
            kind,
            site: opening.site,
            number: opening.block,
            key: opening.key,
            codes: opening.codes,
            register: opening.register,
            table: opening.stations,
            stations,
            rows,
            seats: [Seat::EMPTY; 9],
        }
    }

    // The tables of a block that is opened, or of one that is refused.
    pub(crate) fn open<C: Compression>(opening: Opening<'k, 'c, 'r, 's>) -> Tables<'k, 'c, 'r, 's>
        ensures opened { Opened (given C.Compression.KIND C.Compression.SHORTEST_KEY C.Compression.LONGEST_KEY opening.entry) (view result) }
        ensures examples { ExamplesHold }
        ensures sound { ∥ Sound (view result) ∥₁ }
    {
        let kind = C::KIND;
        let Opening {
            site,
            block,
            key,
            codes,
            register,
            stations,
        } = opening;
        // taken apart, since the check does not follow two fields of one record that are lent at once
        let verdict = check::<C>(site, block, key, codes, register, stations);
        let opening = Opening {
            site,
            block,
            key,
            codes,
            register,
            stations,
        };
        match verdict {
            Err(_) => Tables::new(kind, opening, 0, Row::EMPTY),
            Ok(()) => {
                fill(opening.codes);
                wipe(opening.register);
                let free = Row {
                    head: 1,
                    count: opening.codes.len() as u16,
                };
                let many = opening.stations.len() as u16;
                Tables::new(kind, opening, many, free)
            }
        }
    }

    // What is kept of a station.
    pub(crate) fn seat(&self, station: usize) -> Seat
        requires { station ≤ 8 }
        ensures taken { result.taken ≡ slice_index (view self.now).taken station }
        ensures newest { result.newest ≡ slice_index (view self.now).newest station }
    {
        self.seats[station]
    }

    // Notes how many codes a station has taken.
    pub(crate) fn set_taken(&mut self, station: usize, taken: u16)
        requires { station ≤ 8 }
        ensures { view self.new ≡ with_taken (view self.old) station taken }
    {
        self.seats[station].taken = taken;
    }

    // Marks a code: the one way in which a code's status changes.
    pub(crate) fn mark(&mut self, code: u16, status: Status, station: u16)
        requires low { 1 ≤ code }
        requires high { code ≤ length self.old.codes.now }
        ensures { view self.new ≡ with_mark (view self.old) code (record { status = status; station = station }) }
    {
        let i = usize::from(code) - 1;
        self.codes[i] = CodeCell {
            status,
            station,
            ..self.codes[i]
        };
    }

    // The first code has left a row: `rest` is the next one.
    fn leave(&mut self, row: u16, rest: u16)
        requires known { row ≤ 8 }
        requires some { 1 ≤ (slice_index_or self.old.rows row no_row).count }
        ensures { view self.new ≡ with_row (view self.old) row (record { head = rest; count = (slice_index_or self.old.rows row no_row).count - 1 }) }
    {
        let kept = &mut self.rows[usize::from(row)];
        kept.head = rest;
        kept.count -= 1;
    }

    // A code has come to the front of a row.
    fn join(&mut self, row: u16, code: u16)
        requires known { row ≤ 8 }
        requires room { (slice_index_or self.old.rows row no_row).count < 65535 }
        ensures { view self.new ≡ with_row (view self.old) row (record { head = code; count = (slice_index_or self.old.rows row no_row).count + 1 }) }
    {
        let kept = &mut self.rows[usize::from(row)];
        kept.head = code;
        kept.count += 1;
    }

    // Moves the first code of one row to the front of another. `kept` is no invariant of the tables: the steps in here break
    // it.
    fn shift(&mut self, from: u16, to: u16)
        requires apart { from ≢ to }
        requires from { from ≤ self.old.stations }
        requires to { to ≤ self.old.stations }
        requires some { 1 ≤ (slice_index_or self.old.rows from no_row).count }
        requires kept { ∥ Kept (view self.old) ∥₁ }
        ensures moves { (o : Terms) (l : Ledger) → Matches o (view self.old) l → Matches o (view self.new) (move from to l) }
        ensures fewer { (slice_index_or self.new.rows from no_row).count + 1 ≡ (slice_index_or self.old.rows from no_row).count }
        ensures stations { self.new.stations ≡ self.old.stations }
        ensures taken { (view self.new).taken ≡ (view self.old).taken }
    {
        // `as`: after `usize::from` the proof would have to turn each index back into the row
        let first = self.rows[from as usize].head;
        let front = self.rows[to as usize].head;
        if let Some((code, rest)) = pop_front(self.codes, first) {
            let head = push_front(self.codes, front, code);
            let status = row_status(to);
            self.mark(code, status, to);
            self.leave(from, rest);
            self.join(to, head);
        }
    }

    // Moves the first code of one row to the front of another, `count` times.
    pub(crate) fn shift_many(&mut self, from: u16, to: u16, count: u32)
        requires apart { from ≢ to }
        requires from { from ≤ self.old.stations }
        requires to { to ≤ self.old.stations }
        requires enough { count ≤ (slice_index_or self.old.rows from no_row).count }
        requires kept { ∥ Kept (view self.old) ∥₁ }
        ensures moves { (o : Terms) (l : Ledger) → Matches o (view self.old) l → Matches o (view self.new) (times count (move from to) l) }
        ensures taken { (view self.new).taken ≡ (view self.old).taken }
    {
        for _ in 0..count {
            self.shift(from, to);
        }
    }

    // Takes the first code off a station's row and marks it drawn: answers it.
    pub(crate) fn take_first(&mut self, station: u16) -> u16
        requires low { 1 ≤ station }
        requires known { station ≤ self.old.stations }
        requires some { 1 ≤ (slice_index_or self.old.rows station no_row).count }
        requires kept { ∥ Kept (view self.old) ∥₁ }
        ensures code { result ≡ (slice_index_or self.old.rows station no_row).head }
        ensures takes { view self.new ≡ drawn_out (view self.old) station }
    {
        let first = self.rows[station as usize].head;
        match pop_front(self.codes, first) {
            // never, since the row has a code
            None => 0,
            Some((code, rest)) => {
                self.mark(code, Status::Drawn, station);
                self.leave(station, rest);
                code
            }
        }
    }

    // Whether the station has the code drawn here.
    pub(crate) fn has_drawn(&self, code: u16, station: u16) -> bool
        ensures { result ≡ has_drawn self.now.codes.now code station }
    {
        let place = usize::from(code).checked_sub(1);
        let cell = place.and_then(|i| self.codes.get(i));
        cell.is_some_and(|c| c.status == Status::Drawn && c.station == station)
    }
}
