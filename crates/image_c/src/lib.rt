// The function that programs in other languages call.
#![tactic(auto)]

ghost use Rattle.std.specs.Prelude.{◌≡◌, ℕ, ◌≤◌, Ok};
ghost use Rattle.image.specs.Open.{answer_by_kind, place_by_kind};
ghost use Rattle.image_c.specs.Host.{by_numbers};

use image::open_image_by_kind;
use refusal::code;

// What opening answers, by numbers: 0 and the length of the message, or the number of the refusal and 0.
#[repr(C)]
#[derive(Clone, Copy, Debug, PartialEq, Eq)]
pub struct HurbezkiOpened {
    pub refusal: u32,
    pub length: u32,
}

// The length that is answered fits: a proof and no code.
fn answers_are_short(kind: u32, key: &[u8], image: &[u8], place: &[u8])
    ensures { (n : ℕ) → answer_by_kind kind key.now image.now place.now ≡ Ok n → n ≤ 96 }
{}

// Opens a card image of a kind: include/hurbezki.h says what callers owe.
#[unsafe(no_mangle)]
pub extern "C" fn hurbezki_open_image(
    kind: u32,
    key: &[u8],
    image: &[u8],
    place: &mut [u8],
) -> HurbezkiOpened
    ensures answer { result ≡ by_numbers (answer_by_kind kind key.now image.now place.old) }
    ensures place { place.new ≡ place_by_kind kind key.now image.now place.old }
{
    answers_are_short(kind, key, image, place);
    let answer = open_image_by_kind(kind, key, image, place);
    let length = answer.unwrap_or(0);
    HurbezkiOpened {
        refusal: code(answer),
        length: length as u32,
    }
}
