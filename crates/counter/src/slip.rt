// Slips: a drawn code in somebody's hand.
ghost use Rattle.std.specs.Prelude.{◌≡◌, true};

// A drawn code with where it comes from. It cannot be copied, and it may be let go only once it is spent: by the call
// that seals or voids it.
pub struct Slip {
    pub(crate) site: u32,
    pub(crate) block: u32,
    pub(crate) code: u16,
    pub(crate) station: u16,
    pub(crate) spent: bool,
}

impl Drop for Slip {
    fn drop(self)
        requires { self.spent ≡ true }
    {
        let Slip {
            site: _,
            block: _,
            code: _,
            station: _,
            spent: _,
        } = self;
    }
}

impl Slip {
    pub fn site(&self) -> u32
        ensures { result ≡ self.now.site }
    {
        self.site
    }

    // The number of the block that it was drawn from.
    pub fn block(&self) -> u32
        ensures { result ≡ self.now.block }
    {
        self.block
    }

    pub fn code(&self) -> u32
        ensures { result ≡ self.now.code }
    {
        u32::from(self.code)
    }

    pub fn station(&self) -> u32
        ensures { result ≡ self.now.station }
    {
        u32::from(self.station)
    }
}
