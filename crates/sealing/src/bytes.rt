// Strings of bytes: adding, padding and comparing them.
ghost use Rattle.std.specs.Prelude.{◌≡◌, ◌<◌, length, fold, bit_or, bit_xor};
ghost use Rattle.std.specs.List.{zip};
ghost use Rattle.std.specs.Str.{bytes_eq};
ghost use Rattle.sealing.specs.Strings.{◌⊕◌, zeros, padded};

// Adds a string to one of its length. What is written goes by index here and below, since a proof knows no byte that was
// written through `iter_mut().zip(..)`.
pub(crate) fn add(to: &mut [u8], x: &[u8])
    requires { length to.old ≡ length x.now }
    ensures { to.new ≡ to.old ⊕ x.now }
{
    for (i, x) in x.iter().enumerate() {
        to[i] ^= *x;
    }
}

// The sum of two strings of one length.
pub(crate) fn sum(place: &mut [u8], x: &[u8], y: &[u8])
    requires { (length place.old ≡ length x.now) × (length place.old ≡ length y.now) }
    ensures { place.new ≡ x.now ⊕ y.now }
{
    for (i, x) in x.iter().enumerate() {
        place[i] = *x ^ y[i];
    }
}

// Pads a string, in a place of zeros that is longer.
pub(crate) fn pad(text: &[u8], place: &mut [u8])
    requires { (length text.now < length place.old) × (place.old ≡ zeros (length place.old)) }
    ensures { place.new ≡ padded (length place.old) text.now }
{
    let n = text.len();
    place[..n].copy_from_slice(text);
    place[n] = 0x80;
}

// The bits in which two strings differ, of all their bytes: each byte is looked at, wherever the first difference is.
fn differing(x: &[u8], y: &[u8]) -> u8
    ensures { result ≡ fold (λ d p. bit_or d (bit_xor p.0 p.1)) 0 (zip x.now y.now) }
{
    x.iter().zip(y).fold(0, |bits, (x, y)| bits | (x ^ y))
}

// Whether two strings of one length are the same.
pub(crate) fn same(x: &[u8], y: &[u8]) -> bool
    requires { length x.now ≡ length y.now }
    ensures { result ≡ bytes_eq x.now y.now }
{
    differing(x, y) == 0
}
