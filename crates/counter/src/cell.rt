// The cells that a caller lends to a block, one for each code, and the register's. Chains run through them by numbers,
// with 0 at the end, so that a block needs no memory but what it is lent.
ghost use Rattle.std.proofs.Common.{rules};

use chain::Linked;

// What has become of a code.
#[derive(Clone, Copy, Debug, PartialEq, Eq)]
pub enum Status {
    // nobody's, to be reserved
    Free,
    // a station's, to be drawn
    Reserved,
    // on a slip in somebody's hand, to be sealed or voided
    Drawn,
    // sealed on a card
    Issued,
    // never to be used
    Void,
}

// A code's cell. A free code has station 0; a code that is neither free nor reserved stands in no chain.
#[derive(Clone, Copy, Debug, PartialEq, Eq)]
pub struct CodeCell {
    pub status: Status,
    pub station: u16,
    pub next: u16,
}

impl CodeCell {
    // The cell of a code that nobody has, in no chain: what is lent to a block may be filled with it.
    pub const FREE: CodeCell = CodeCell {
        status: Status::Free,
        station: 0,
        next: 0,
    };
}

impl Linked for CodeCell {
    ghost link = { λ c. c.next };

    ghost relinked = { λ c n. record { status = c.status; station = c.station; next = n } };

    ghost reads = { Prim.search rules };

    ghost last = { Prim.search rules };

    ghost same = { Prim.search rules };

    fn next(&self) -> u16 {
        self.next
    }

    fn set_next(&mut self, n: u16) {
        self.next = n;
    }
}

// A register cell: room for one card image. Its next number is the cell that its station issued before it.
#[derive(Clone, Copy, Debug, PartialEq, Eq)]
pub struct RegisterCell {
    pub next: u16,
    pub image: [u8; 192],
}

impl RegisterCell {
    // A cell that holds no image. Rust derives no `Default` for an array of 192.
    pub const BLANK: RegisterCell = RegisterCell {
        next: 0,
        image: [0; 192],
    };
}

// As for a code's cell: each impl names the field of its own record.
impl Linked for RegisterCell {
    ghost link = { λ c. c.next };

    ghost relinked = { λ c n. record { next = n; image = c.image } };

    ghost reads = { Prim.search rules };

    ghost last = { Prim.search rules };

    ghost same = { Prim.search rules };

    fn next(&self) -> u16 {
        self.next
    }

    fn set_next(&mut self, n: u16) {
        self.next = n;
    }
}
