// Where the fields of a card image are, and how long it may be.

pub(crate) const KIND_AT: usize = 0;

pub(crate) const SITE_AT: usize = 1;

pub(crate) const BLOCK_AT: usize = 5;

pub(crate) const CODE_AT: usize = 9;

pub(crate) const STATION_AT: usize = 13;

pub(crate) const HEADER_LEN_AT: usize = 14;

pub(crate) const MESSAGE_LEN_AT: usize = 15;

pub(crate) const HEADER_AT: usize = 16;

pub(crate) const TAG_LEN: usize = 16;

pub(crate) const LONGEST_HEADER: usize = 64;

pub(crate) const LONGEST_MESSAGE: usize = 96;

pub(crate) const SHORTEST_IMAGE: usize = 32;

pub(crate) const LONGEST_IMAGE: usize = 192;
