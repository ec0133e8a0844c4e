// The block: codes 1 to N, reserved, drawn and voided by its stations. Where a call is refused, nothing changes.
ghost use Rattle.std.specs.Prelude.{◌≡◌, ◌≤◌, true, false, length, MatchResult};
ghost use Rattle.refusal.specs.declared.Refusal.TheVariants.{UnknownStation};
ghost use Rattle.counter.specs.Cells.{outside};
ghost use Rattle.counter.specs.Ledger.{others_lack, tally_of, latest_of, Reserve, GiveBack, Draw, VoidSlip};
ghost use Rattle.counter.specs.Opened.{given};
ghost use Rattle.counter.specs.Shown.{view, Sound};
ghost use Rattle.counter.specs.Examples.{ExamplesHold};
ghost use Rattle.counter.specs.History.{Opened, Step, Looks, numbers, slip_of, drawn_code};
ghost use Rattle.counter.specs.Inside.{Judges};

use crate::cell::{CodeCell, RegisterCell, Status};
use crate::opening::Opening;
use crate::slip::Slip;
use crate::station::lacking;
use crate::tables::Tables;
use compression::Compression;
use refusal::Refusal;

// A block of codes that is open. It shows some ledger at all times.
#[derive(Drop)]
pub struct Block<'k, 'c, 'r, 's> {
    t: Tables<'k, 'c, 'r, 's>,
    ghost sound: { ∥ Sound (view t) ∥₁ },
}

impl<'k, 'c, 'r, 's> Block<'k, 'c, 'r, 's> {
    // Opens a block over what is lent to it: all codes free, in order, and the register zero. Where `check` would refuse,
    // the block has no code and no station, and what was lent stays as it was.
    pub fn open<C: Compression>(opening: Opening<'k, 'c, 'r, 's>) -> Block<'k, 'c, 'r, 's>
        ensures opened { Opened (given C.Compression.KIND C.Compression.SHORTEST_KEY C.Compression.LONGEST_KEY opening.entry) (view result.t) }
        ensures examples { ExamplesHold }
    {
        Block {
            t: Tables::open::<C>(opening),
        }
    }

    // The number of a station that takes part.
    fn known(&self, station: u32) -> Result<usize, Refusal>
        ensures { MatchResult result (λ k. (k ≡ station) × (outside self.now.t.stations station ≡ false) × (1 ≤ k) × (k ≤ 8) × (k ≤ self.now.t.stations) × (k ≤ length self.now.t.table.now)) (λ r. (r ≡ UnknownStation) × (outside self.now.t.stations station ≡ true)) }
    {
        if station == 0 || station > u32::from(self.t.stations) {
            return Err(Refusal::UnknownStation);
        }
        // `as`, here and in the calls: no `From` takes a `u32` to a `usize`, and the other casts narrow what was tested
        Ok(station as usize)
    }

    // What the stations other than station `k` lack of their guarantees.
    fn others_lack(&self, k: usize) -> u32
        requires low { 1 ≤ k }
        requires known { k ≤ self.now.t.stations }
        ensures { Looks (view self.now.t) (λ o l. others_lack o l k) result }
    {
        // `as`: by `usize::from` the proof would have to turn the count back
        let many = self.t.stations as usize;
        let all = lacking(&self.t.table[..many], &self.t.seats[1..]);
        let own = self.t.table[k - 1].lacks(self.t.seat(k).taken);
        all - u32::from(own)
    }

    // The verdict on a reserve, by the kept counts.
    fn judge_reserve(&self, station: u32, count: u32) -> Result<(), Refusal>
        ensures { Judges (view self.now.t) (Reserve station count) result }
    {
        let k = self.known(station)?;
        if count == 0 {
            return Err(Refusal::ZeroCount);
        }
        let limit = self.t.table[k - 1].limit;
        if u64::from(self.t.seat(k).taken) + u64::from(count) > u64::from(limit) {
            return Err(Refusal::OverLimit);
        }
        if u64::from(self.t.rows[0].count) < u64::from(count) + u64::from(self.others_lack(k)) {
            return Err(Refusal::OwedToOthers);
        }
        Ok(())
    }

    // The verdict on a give back.
    fn judge_give_back(&self, station: u32, count: u32) -> Result<(), Refusal>
        ensures { Judges (view self.now.t) (GiveBack station count) result }
    {
        let k = self.known(station)?;
        if count == 0 {
            return Err(Refusal::ZeroCount);
        }
        if u32::from(self.t.rows[k].count) < count {
            return Err(Refusal::MoreThanReserved);
        }
        Ok(())
    }

    // The verdict on a draw.
    fn judge_draw(&self, station: u32) -> Result<(), Refusal>
        ensures { Judges (view self.now.t) (Draw station) result }
    {
        let k = self.known(station)?;
        if self.t.rows[k].count == 0 {
            return Err(Refusal::NothingReserved);
        }
        Ok(())
    }

    // The verdict on a call that spends a slip, wherever the slip comes from.
    fn judge_slip(&self, slip: &Slip) -> Result<(), Refusal>
        ensures { Judges (view self.now.t) (VoidSlip (numbers slip.now)) result }
    {
        self.known(u32::from(slip.station))?;
        let ours = slip.site == self.t.site && slip.block == self.t.number;
        if !ours || !self.t.has_drawn(slip.code, slip.station) {
            return Err(Refusal::SlipNotDrawn);
        }
        Ok(())
    }

    // An accepted reserve: answers how many codes are still free. It and `take_back` differ in the way that codes go, and in
    // plus and minus; moving them is one function.
    fn hand_out(&mut self, station: u32, count: u32) -> u32
        requires { Judges (view self.old.t) (Reserve station count) (Ok tt) }
        ensures { Step (view self.old.t) (Reserve station count) (Ok result) (view self.new.t) }
    {
        self.t.shift_many(0, station as u16, count);
        let k = station as usize;
        let taken = self.t.seat(k).taken + count as u16;
        self.t.set_taken(k, taken);
        u32::from(self.t.rows[0].count)
    }

    // An accepted give back: answers how many codes are free now.
    fn take_back(&mut self, station: u32, count: u32) -> u32
        requires { Judges (view self.old.t) (GiveBack station count) (Ok tt) }
        ensures { Step (view self.old.t) (GiveBack station count) (Ok result) (view self.new.t) }
    {
        self.t.shift_many(station as u16, 0, count);
        let k = station as usize;
        let taken = self.t.seat(k).taken - count as u16;
        self.t.set_taken(k, taken);
        u32::from(self.t.rows[0].count)
    }

    // An accepted draw: answers the slip with the station's first code.
    fn write_slip(&mut self, station: u32) -> Slip
        requires { Judges (view self.old.t) (Draw station) (Ok tt) }
        ensures steps { Step (view self.old.t) (Draw station) (Ok result.code) (view self.new.t) }
        ensures slip { result ≡ slip_of (view self.old.t) station result.code }
    {
        let k = station as u16;
        let code = self.t.take_first(k);
        Slip {
            site: self.t.site,
            block: self.t.number,
            code,
            station: k,
            spent: false,
        }
    }

    // An accepted void: answers the code.
    fn spoil(&mut self, slip: &Slip) -> u32
        requires { Judges (view self.old.t) (VoidSlip (numbers slip.now)) (Ok tt) }
        ensures { Step (view self.old.t) (VoidSlip (numbers slip.now)) (Ok result) (view self.new.t) }
    {
        self.t.mark(slip.code, Status::Void, slip.station);
        u32::from(slip.code)
    }

    // Moves the first free code to the front of the station's, `count` times: answers how many are still free.
    pub fn reserve(&mut self, station: u32, count: u32) -> Result<u32, Refusal>
        ensures { Step (view self.old.t) (Reserve station count) result (view self.new.t) }
    {
        self.judge_reserve(station, count)?;
        Ok(self.hand_out(station, count))
    }

    // Moves the station's first code to the front of the free ones, `count` times: answers how many are free now.
    pub fn give_back(&mut self, station: u32, count: u32) -> Result<u32, Refusal>
        ensures { Step (view self.old.t) (GiveBack station count) result (view self.new.t) }
    {
        self.judge_give_back(station, count)?;
        Ok(self.take_back(station, count))
    }

    // Takes the station's first code: answers the slip with it.
    pub fn draw(&mut self, station: u32) -> Result<Slip, Refusal>
        ensures steps { Step (view self.old.t) (Draw station) (drawn_code result) (view self.new.t) }
        ensures slip { MatchResult result (λ p. p ≡ slip_of (view self.old.t) station p.code) (λ _. 0 ≤ 0) }
    {
        self.judge_draw(station)?;
        Ok(self.write_slip(station))
    }

    // Makes the slip's code void for ever: answers the code. The slip is spent, also where the call is refused.
    pub fn void(&mut self, mut slip: Slip) -> Result<u32, Refusal>
        ensures { Step (view self.old.t) (VoidSlip (numbers slip)) result (view self.new.t) }
    {
        slip.spent = true;
        self.judge_slip(&slip)?;
        Ok(self.spoil(&slip))
    }

    // How many codes the station has taken, and how many it lacks of its guarantee.
    pub fn tally(&self, station: u32) -> Result<(u32, u32), Refusal>
        ensures { Looks (view self.now.t) (λ o l. tally_of o l station) result }
    {
        let station = self.known(station)?;
        let taken = self.t.seat(station).taken;
        let lacks = self.t.table[station - 1].lacks(taken);
        Ok((u32::from(taken), u32::from(lacks)))
    }

    // The newest register cell of the station.
    pub fn latest(&self, station: u32) -> Result<Option<u32>, Refusal>
        ensures { Looks (view self.now.t) (λ o l. latest_of o l station) result }
    {
        let newest = self.t.seat(self.known(station)?).newest;
        // 0 ends a chain, as in the cells
        Ok((newest != 0).then_some(u32::from(newest)))
    }

    // Ends the block and gives back what was lent to it.
    pub fn close(self) -> (&'c mut [CodeCell], &'r mut [RegisterCell])
        ensures codes { result.0.now ≡ (view self.entry.t).cells }
        ensures register { result.1.now ≡ (view self.entry.t).register }
    {
        // each in a variable first: the check does not yet follow a reference out of a field of a field
        let codes = self.t.codes;
        let register = self.t.register;
        (codes, register)
    }
}
