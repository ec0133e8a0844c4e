// A reader that takes a card image apart.
ghost use Rattle.std.specs.Prelude.{◌≡◌, false, Ok};
ghost use Rattle.refusal.specs.Verdict.{answered};
ghost use Rattle.image.specs.Look.{wrong_length, look_verdict, shown_in, shown_parts, shown};
ghost use Rattle.image.specs.Laws.{PartsAreTheImage};

use crate::label::Label;
use crate::layout::{
    HEADER_AT, HEADER_LEN_AT, KIND_AT, LONGEST_HEADER, LONGEST_IMAGE, LONGEST_MESSAGE,
    MESSAGE_LEN_AT, SHORTEST_IMAGE, TAG_LEN,
};
use compression::Kind;
use refusal::Refusal;

// A part of an image: where it begins, and its bytes.
#[derive(Clone, Copy, Debug, PartialEq, Eq)]
pub struct Part<'a> {
    pub at: usize,
    pub bytes: &'a [u8],
}

// The parts of an image behind its fixed bytes.
#[derive(Clone, Copy, Debug, PartialEq, Eq)]
pub struct Parts<'a> {
    pub header: Part<'a>,
    pub ciphertext: Part<'a>,
    pub tag: Part<'a>,
}

// The lengths in the image do not add up.
fn wrong_length(image: &[u8]) -> bool
    ensures { result ≡ wrong_length image.now }
{
    let n = image.len();
    if n < SHORTEST_IMAGE || LONGEST_IMAGE < n {
        return true;
    }
    let h = usize::from(image[HEADER_LEN_AT]);
    let w = usize::from(image[MESSAGE_LEN_AT]);
    LONGEST_HEADER < h || LONGEST_MESSAGE < w || n != SHORTEST_IMAGE + h + w
}

// The tests of a look, in their order.
pub(crate) fn look_tested(kind: u32, image: &[u8]) -> Result<(), Refusal>
    ensures verdict { result ≡ look_verdict kind image.now }
    ensures lengths { result ≡ Ok tt → wrong_length image.now ≡ false }
{
    if wrong_length(image) {
        return Err(Refusal::ImageLength);
    }
    if u32::from(image[KIND_AT]) != kind || Kind::try_from(kind).is_err() {
        return Err(Refusal::KindMismatch);
    }
    if Label::from_image(image).is_unlawful() {
        return Err(Refusal::ImageNumber);
    }
    Ok(())
}

// Cuts an image whose lengths add up.
pub(crate) fn cut(image: &[u8]) -> Parts<'_>
    requires { wrong_length image.now ≡ false }
    ensures { shown_parts result ≡ shown_in image.now }
{
    let header_at = HEADER_AT;
    let ciphertext_at = header_at + usize::from(image[HEADER_LEN_AT]);
    let tag_at = ciphertext_at + usize::from(image[MESSAGE_LEN_AT]);
    Parts {
        header: Part {
            at: header_at,
            bytes: &image[header_at..ciphertext_at],
        },
        ciphertext: Part {
            at: ciphertext_at,
            bytes: &image[ciphertext_at..tag_at],
        },
        tag: Part {
            at: tag_at,
            bytes: &image[tag_at..tag_at + TAG_LEN],
        },
    }
}

// The parts of an accepted image are the image: a proof and no code.
fn parts_are_the_image(kind: u32, image: &[u8])
    ensures { PartsAreTheImage kind image.now }
{}

// A reader of the image of one card, for one kind.
#[derive(Clone, Copy, Debug, PartialEq, Eq)]
pub struct ImageReader<'a> {
    // a number that need not be a kind's: it is refused after the image's length
    kind: u32,
    bytes: &'a [u8],
}

impl<'a> ImageReader<'a> {
    // A reader of these bytes, for a kind.
    pub fn new(kind: u32, bytes: &'a [u8]) -> ImageReader<'a>
        ensures kind { result.kind ≡ kind }
        ensures bytes { result.bytes.now ≡ bytes.now }
    {
        ImageReader { kind, bytes }
    }

    // Takes the image apart: header, ciphertext and tag lie behind one another, and end where the image ends.
    pub fn look(&self) -> Result<Parts<'a>, Refusal>
        ensures parts { shown result ≡ answered (look_verdict self.now.kind self.now.bytes.now) (shown_in self.now.bytes.now) }
        ensures whole { PartsAreTheImage self.now.kind self.now.bytes.now }
    {
        parts_are_the_image(self.kind, self.bytes);
        look_tested(self.kind, self.bytes)?;
        Ok(cut(self.bytes))
    }
}
