// Doubling of a block, byte by byte.
ghost use Rattle.std.specs.Prelude.{◌≡◌, ◌+◌, ◌*◌, ◌/◌, ◌%◌, ◌<◌, ◌⊎◌, length};
ghost use Rattle.refusal.specs.Verdict.{left};
ghost use Rattle.sealing.specs.Double.{reduction, double};
ghost use Rattle.sealing.specs.Calls.{double_verdict};
ghost use Rattle.sealing.specs.Examples.{Hold, sealing_examples};
ghost use Rattle.sealing.specs.Parts.{shifted_left};

use refusal::Refusal;

// A byte one bit to the left, with the highest bit of the next byte behind it.
fn shifted(x: u8, next: u8) -> u8
    ensures { result ≡ x * 2 % 256 + next / 128 }
{
    (x << 1) + (next >> 7)
}

// The whole string one bit to the left; the bit that falls out is lost. By index, since each byte is written once the next is
// read, and `windows` only reads.
fn shift_left(s: &mut [u8])
    requires { 0 < length s.old }
    ensures { s.new ≡ shifted_left s.old }
{
    let last = s.len() - 1;
    for i in 0..last {
        s[i] = shifted(s[i], s[i + 1]);
    }
    s[last] = shifted(s[last], 0);
}

// The higher byte of the reduction for strings of n bytes; the lower one is 0x25.
fn high(n: usize) -> u8
    ensures { result * 256 + 0x25 ≡ reduction n }
{
    if n == 32 { 0x04 } else { 0x01 }
}

// Doubles a string of 32 or of 64 bytes.
pub(crate) fn double_block(s: &mut [u8])
    requires { (length s.old ≡ 32) ⊎ (length s.old ≡ 64) }
    ensures { s.new ≡ double s.old }
{
    let n = s.len();
    // all ones where a 1 falls out, else zero: no branch depends on the string
    let out = 0u8.wrapping_sub(s[0] >> 7);
    shift_left(s);
    s[n - 2] ^= high(n) & out;
    s[n - 1] ^= 0x25 & out;
}

// The worked examples: a proof and no code.
fn as_worked()
    ensures { Hold sealing_examples }
{}

// Doubles a string of 32 or of 64 bytes in its place.
pub fn double(s: &mut [u8]) -> Result<(), Refusal>
    ensures verdict { result ≡ double_verdict s.old }
    ensures after { s.new ≡ left result s.old (double s.old) }
    ensures examples { Hold sealing_examples }
{
    as_worked();
    if s.len() != 32 && s.len() != 64 {
        return Err(Refusal::PlaceLength);
    }
    double_block(s);
    Ok(())
}
