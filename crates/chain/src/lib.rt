// Chains of records by next numbers: one list after another threaded through one slice of cells.
#![tactic(auto)]

ghost use Rattle.std.specs.Prelude.{◌≡◌, ℕ, false, List, ◌∷◌, map, length, if◌then◌else◌, Some, None};
ghost use Rattle.chain.specs.Chain.{no_cell, next_of, relink, Chain, Absent};

// A record with the number of the next one in its chain. Cells are numbered from 1; 0 ends a chain.
pub trait Linked {
    // the next number
    ghost link: { Self → ℕ };
    // the record with another next number
    ghost relinked: { Self → ℕ → Self };

    fn next(&self) -> u16
        ensures { result ≡ link self.now };

    fn set_next(&mut self, n: u16)
        ensures { self.new ≡ relinked self.old n };

    ghost reads: { (x : Self) (n : ℕ) → link (relinked x n) ≡ n };

    ghost last: { (x : Self) (m n : ℕ) → relinked (relinked x m) n ≡ relinked x n };

    ghost same: { (x : Self) → relinked x (link x) ≡ x };
}

// Gives cell `i` another next number and answers the one that it had, where a cell has the number `i`. It then stands in
// front of the chain from the new number, and the rest of a chain that it was first of is untouched.
fn link_cell<R: Linked>(cells: &mut [R], i: u16, next: u16) -> Option<u16>
    ensures had { result ≡ (if no_cell (length cells.old) i then None else Some (next_of (map R.link cells.old) i)) }
    ensures links { cells.new ≡ relink R.relinked cells.old i next }
    ensures front { (xs : List ℕ) → no_cell (length cells.old) i ≡ false → Chain (map R.link cells.old) next xs → Absent i xs → Chain (map R.link cells.new) i (i ∷ xs) }
    ensures rest { (x : ℕ) (xs : List ℕ) → Chain (map R.link cells.old) i (x ∷ xs) → (x ≡ i) × Chain (map R.link cells.new) (next_of (map R.link cells.old) i) xs }
{
    let place = usize::from(i).checked_sub(1)?;
    let had = cells.get(place)?.next();
    // by index: of a slice's `get_mut` a proof knows no element once the borrow is over
    cells[place].set_next(next);
    Some(had)
}

// Puts cell `i` in front of the chain from `head` and answers the new head. Where no cell has the number `i`, nothing
// changes and the head stays.
pub fn push_front<R: Linked>(cells: &mut [R], head: u16, i: u16) -> u16
    ensures head { result ≡ (if no_cell (length cells.old) i then head else i) }
    ensures links { cells.new ≡ relink R.relinked cells.old i head }
    ensures chain { (xs : List ℕ) → no_cell (length cells.old) i ≡ false → Chain (map R.link cells.old) head xs → Absent i xs → Chain (map R.link cells.new) i (i ∷ xs) }
{
    match link_cell(cells, i, head) {
        Some(_) => i,
        None => head,
    }
}

// Takes the first cell off the chain from `head`: answers its number and the new head, and the cell's next number is 0
// then. Where no cell has the number `head`, nothing changes.
pub fn pop_front<R: Linked>(cells: &mut [R], head: u16) -> Option<(u16, u16)>
    ensures first { result ≡ (if no_cell (length cells.old) head then None else Some (head, next_of (map R.link cells.old) head)) }
    ensures links { cells.new ≡ relink R.relinked cells.old head 0 }
    ensures chain { (x : ℕ) (xs : List ℕ) → Chain (map R.link cells.old) head (x ∷ xs) → (x ≡ head) × Chain (map R.link cells.new) (next_of (map R.link cells.old) head) xs }
{
    let next = link_cell(cells, head, 0)?;
    Some((head, next))
}
