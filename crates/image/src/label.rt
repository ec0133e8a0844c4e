// The numbers that a card names.
ghost use Rattle.std.specs.Prelude.{◌≡◌, ◌+◌, ◌≤◌, length};
ghost use Rattle.image.specs.Image.{nonce, number_at, label_of};
ghost use Rattle.image.specs.Look.{unlawful};

use crate::layout::{BLOCK_AT, CODE_AT, SITE_AT, STATION_AT};

// Who a card is for: the site, the block of codes, the code of the key, and the station that drew it.
#[derive(Clone, Copy, Debug, PartialEq, Eq)]
pub struct Label {
    pub site: u32,
    pub block: u32,
    pub code: u32,
    pub station: u8,
}

const LAST_CODE: u32 = 4_096;

const LAST_STATION: u8 = 8;

// The number in four bytes, big-endian.
fn number_at(at: usize, image: &[u8]) -> u32
    requires { at + 4 ≤ length image.now }
    ensures { result ≡ number_at at image.now }
{
    u32::from_be_bytes(*image[at..].first_chunk().unwrap())
}

impl Label {
    // The label of an image.
    pub(crate) fn from_image(image: &[u8]) -> Label
        requires { 32 ≤ length image.now }
        ensures { result ≡ label_of image.now }
    {
        Label {
            site: number_at(SITE_AT, image),
            block: number_at(BLOCK_AT, image),
            code: number_at(CODE_AT, image),
            station: image[STATION_AT],
        }
    }

    // Numbers that no card has.
    pub(crate) fn is_unlawful(&self) -> bool
        ensures { result ≡ unlawful self.now }
    {
        self.site == 0
            || self.block == 0
            || self.code == 0
            || self.station == 0
            || LAST_CODE < self.code
            || LAST_STATION < self.station
    }

    // The nonce of the card's seal: site, block and code.
    pub(crate) fn nonce(&self) -> [u8; 12]
        ensures { result ≡ nonce self.now }
    {
        let mut bytes = [0u8; 12];
        bytes[0..4].copy_from_slice(&self.site.to_be_bytes());
        bytes[4..8].copy_from_slice(&self.block.to_be_bytes());
        bytes[8..12].copy_from_slice(&self.code.to_be_bytes());
        bytes
    }
}
