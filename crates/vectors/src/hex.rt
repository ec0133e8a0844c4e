// Byte strings as lower-case hex, with `-` for the empty one.
ghost use Rattle.std.specs.Prelude.{◌≡◌, ◌*◌, ◌<◌, false, Some, length};
ghost use Rattle.std.specs.Fmt.{digit_glyph};
ghost use Rattle.std.specs.List.{flat_map};
ghost use Rattle.std.specs.Str.{IsAscii};
ghost use Rattle.vectors.specs.Field.{two_digits, field};

use crate::request::Unread;
use std::alloc::Global;
use std::{fmt, str};

// No `to_digit(16)`: it takes upper case.
fn nibble(digit: u8) -> Result<u8, Unread> {
    match digit {
        b'0'..=b'9' => Ok(digit - b'0'),
        b'a'..=b'f' => Ok(digit - b'a' + 10),
        _ => Err(Unread::NoRequest),
    }
}

fn byte(pair: &[u8]) -> Result<u8, Unread> {
    let &[high, low] = pair else {
        return Err(Unread::NoRequest);
    };
    Ok((nibble(high)? << 4) | nibble(low)?)
}

// The bytes that a field stands for. An empty field is no byte string.
pub(crate) fn decode(heap: Global, field: &str) -> Result<Vec<u8>, Unread> {
    match field {
        "" => Err(Unread::NoRequest),
        "-" => Ok(Vec::new(heap)),
        digits => digits.as_bytes().chunks(2).map(byte).try_collect(heap),
    }
}

// The digit of half a byte.
fn digit(half: u8) -> u8
    requires { half < 16 }
    ensures { result ≡ digit_glyph false half }
{
    if half < 10 {
        b'0' + half
    } else {
        b'a' - 10 + half
    }
}

// Fills a place with two digits for each byte.
fn encode(bytes: &[u8], place: &mut [u8])
    requires { length place.old ≡ 2 * length bytes.now }
    ensures digits { place.new ≡ flat_map two_digits bytes.now }
    ensures ascii { IsAscii place.new }
{
    for (i, b) in bytes.iter().enumerate() {
        place[2 * i..2 * i + 2].copy_from_slice(&[digit(b >> 4), digit(b & 15)]);
    }
}

// The field that stands for the bytes: two digits each, or `-` for none.
#[derive(Clone, Copy)]
pub(crate) struct Hex<'a>(pub(crate) &'a [u8]);

impl fmt::Display for Hex<'_> {
    ghost output = { λ h. Some (field h.0.now) };

    fn fmt<W: fmt::Write>(&self, f: &mut fmt::Formatter<W>) -> fmt::Result {
        if self.0.is_empty() {
            return write!(f, "-");
        }
        // four bytes to a write: a write for each, as by `{b:02x}`, costs several times as much
        let mut text = [0u8; 8];
        for chunk in self.0.chunks(4) {
            let digits = &mut text[..2 * chunk.len()];
            encode(chunk, digits);
            f.write_str(str::from_utf8(digits).unwrap())?;
        }
        Ok(())
    }
}
