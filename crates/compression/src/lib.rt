// Keyed compressions behind one interface: what sealing rests on.
#![tactic(auto)]

ghost use Rattle.std.specs.Prelude.{◌≡◌, ℕ, ◌≤◌, ◌⊎◌, List, length};
ghost use Rattle.std.specs.Int.Digits.{AllBelowBase};
ghost use Rattle.refusal.specs.Verdict.{left};
ghost use Rattle.compression.specs.Compress.{key_verdict, compress_verdict};

use refusal::Refusal;

mod blake2b;
mod kind;
mod sha256;
mod words;

pub use blake2b::{Blake2b, blake2b_f, initial_value};
pub use kind::Kind;
pub use sha256::{Sha256, round_constant};

// A keyed compression: one fixed function from a key, a chaining block and a message block to a block.
pub trait Compression {
    // the number by which cards and calls know it
    ghost KIND: { ℕ };

    const KIND: u8;
    // the bytes of a block
    ghost BLOCK_LEN: { ℕ };

    const BLOCK_LEN: usize;
    // the bytes of the shortest and of the longest key
    ghost SHORTEST_KEY: { ℕ };

    const SHORTEST_KEY: usize;

    ghost LONGEST_KEY: { ℕ };

    const LONGEST_KEY: usize;
    // the function, from key, chaining block and message block
    ghost meaning: { List ℕ → List ℕ → List ℕ → List ℕ };

    // Writes the function's value to `place`, or refuses and leaves it as it was.
    fn compress(
        key: &[u8],
        chaining: &[u8],
        message: &[u8],
        place: &mut [u8],
    ) -> Result<(), Refusal>
        ensures verdict { result ≡ compress_verdict BLOCK_LEN SHORTEST_KEY LONGEST_KEY key.now chaining.now message.now place.old }
        ensures after { place.new ≡ left result place.old (meaning key.now chaining.now message.now) };

    ghost numbered: { (1 ≤ KIND) × (KIND ≤ 7) };

    ghost blocked: { (BLOCK_LEN ≡ 32) ⊎ (BLOCK_LEN ≡ 64) };

    ghost ranged: { (16 ≤ SHORTEST_KEY) × (SHORTEST_KEY ≤ LONGEST_KEY) × (LONGEST_KEY ≤ BLOCK_LEN) };

    ghost sized: { (key chaining message : List ℕ) → length (meaning key chaining message) ≡ BLOCK_LEN };

    ghost bytes: { (key chaining message : List ℕ) → AllBelowBase 256 (meaning key chaining message) };
}

// The test of a key, where keys have from `shortest` to `longest` bytes.
fn fits(shortest: usize, longest: usize, key: &[u8]) -> Result<(), Refusal>
    ensures { result ≡ key_verdict shortest longest key.now }
{
    if key.len() < shortest || longest < key.len() {
        return Err(Refusal::KeyLength);
    }
    Ok(())
}

// Whether a key has a length that the compression takes.
pub fn key_tested<C: Compression>(key: &[u8]) -> Result<(), Refusal>
    ensures { result ≡ key_verdict C.SHORTEST_KEY C.LONGEST_KEY key.now }
{
    fits(C::SHORTEST_KEY, C::LONGEST_KEY, key)
}

// The tests of a compression, in their order: the same for every kind. It takes numbers, since the check does not follow a
// call of an impl's method that passes the impl itself for a bound.
pub(crate) fn tested(
    b: usize,
    shortest: usize,
    longest: usize,
    key: &[u8],
    chaining: &[u8],
    message: &[u8],
    place: &[u8],
) -> Result<(), Refusal>
    ensures { result ≡ compress_verdict b shortest longest key.now chaining.now message.now place.now }
{
    fits(shortest, longest, key)?;
    if chaining.len() != b || message.len() != b || place.len() != b {
        return Err(Refusal::PlaceLength);
    }
    Ok(())
}
