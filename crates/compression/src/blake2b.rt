// Function F of BLAKE2b (RFC 7693), and kind 2: F keyed by the first half of its block.
ghost use Rattle.std.specs.Prelude.{◌≡◌, ◌<◌, ◌≤◌, length, if◌then◌else◌, Some, None, nat_lt, slice_index};
ghost use Rattle.std.proofs.Math.Path.{refl};
ghost use Rattle.refusal.specs.Verdict.{left};
ghost use Rattle.compression.specs.Compress.{F_verdict};
ghost use Rattle.compression.specs.Words.{rotate};
ghost use Rattle.compression.specs.Blake2b.{half, G, picked, columns, diagonals, rounds, work, folded, F, compressed};
ghost use Rattle.compression.specs.Blake2b.{IV as iv};
ghost use Rattle.compression.specs.Roots.{IVFromSquareRoots};
ghost use Rattle.compression.specs.Examples.{Blake2bExample};
ghost use Rattle.compression.specs.Keyed.{blake2b};
ghost use borrow.Author.Rules.{rules};

use crate::words::{keyed, load, store};
use crate::{Compression, tested};
use refusal::Refusal;
use std::array;

// the message words that a round takes, in their order
const SIGMA: [[usize; 16]; 10] = [
    [0, 1, 2, 3, 4, 5, 6, 7, 8, 9, 10, 11, 12, 13, 14, 15],
    [14, 10, 4, 8, 9, 15, 13, 6, 1, 12, 0, 2, 11, 7, 5, 3],
    [11, 8, 12, 0, 5, 2, 15, 13, 10, 14, 3, 6, 7, 1, 9, 4],
    [7, 9, 3, 1, 13, 12, 11, 14, 2, 6, 5, 10, 4, 0, 15, 8],
    [9, 0, 5, 7, 2, 4, 10, 15, 14, 1, 11, 12, 6, 8, 3, 13],
    [2, 12, 6, 10, 0, 11, 8, 3, 4, 13, 7, 5, 15, 14, 1, 9],
    [12, 5, 1, 15, 14, 13, 4, 10, 0, 7, 6, 3, 9, 2, 8, 11],
    [13, 11, 7, 14, 12, 1, 3, 9, 5, 0, 15, 4, 8, 6, 2, 10],
    [6, 15, 14, 9, 11, 3, 0, 8, 12, 2, 13, 7, 1, 4, 10, 5],
    [10, 2, 8, 4, 7, 6, 1, 5, 15, 11, 9, 14, 3, 12, 13, 0],
];

// the initial value
const IV: [u64; 8] = [
    0x6a09e667f3bcc908,
    0xbb67ae8584caa73b,
    0x3c6ef372fe94f82b,
    0xa54ff53a5f1d36f1,
    0x510e527fade682d1,
    0x9b05688c2b3e6c1f,
    0x1f83d9abfb41bd6b,
    0x5be0cd19137e2179,
];

// What RFC 7693 says of the initial value, and its example of one block: a proof and no code.
fn as_published()
    ensures roots { IVFromSquareRoots }
    ensures example { Blake2bExample }
{}

// The word i of the initial value, where there is one. (As `get` and `copied` it would need a proof file.) Each word is from
// the square root of its prime, and the definition that F is proved to meet gives the published example.
pub fn initial_value(i: usize) -> Option<u64>
    ensures value { result ≡ (if nat_lt i 8 then Some (slice_index iv i) else None) }
    ensures roots { IVFromSquareRoots }
    ensures example { Blake2bExample }
{
    as_published();
    if i < 8 { Some(IV[i]) } else { None }
}

// A word rotated to the right by n bits.
fn rotated(x: u64, n: u32) -> u64
    requires { (0 < n) × (n < 64) }
    ensures { result ≡ rotate 64 n x }
{
    x.rotate_right(n)
}

// Half of G, with the message word x and the rotations P and Q.
fn mix_half<const P: u32, const Q: u32>(
    v: &mut [u64; 16],
    a: usize,
    b: usize,
    c: usize,
    d: usize,
    x: u64,
)
    requires words { (a < 16) × ((b < 16) × ((c < 16) × (d < 16))) }
    requires turns { (0 < P) × ((P < 64) × ((0 < Q) × (Q < 64))) }
    ensures { v.new ≡ half P Q v.old a b c d x }
{
    v[a] = v[a].wrapping_add(v[b]).wrapping_add(x);
    v[d] = rotated(v[d] ^ v[a], P);
    v[c] = v[c].wrapping_add(v[d]);
    v[b] = rotated(v[b] ^ v[c], Q);
}

fn mix(v: &mut [u64; 16], a: usize, b: usize, c: usize, d: usize, x: u64, y: u64)
    requires { (a < 16) × ((b < 16) × ((c < 16) × (d < 16))) }
    ensures { v.new ≡ G v.old a b c d x y }
{
    mix_half::<32, 24>(v, a, b, c, d, x);
    mix_half::<16, 63>(v, a, b, c, d, y);
}

// The message word that the round i takes at j.
fn pick(m: &[u64; 16], i: usize, j: usize) -> u64
    requires { j < 16 }
    ensures { result ≡ picked m.now i j }
{
    m[SIGMA[i % 10][j]]
}

// The first half of the round i.
fn mix_columns(v: &mut [u64; 16], m: &[u64; 16], i: usize)
    ensures { v.new ≡ columns m.now v.old i }
{
    mix(v, 0, 4, 8, 12, pick(m, i, 0), pick(m, i, 1));
    mix(v, 1, 5, 9, 13, pick(m, i, 2), pick(m, i, 3));
    mix(v, 2, 6, 10, 14, pick(m, i, 4), pick(m, i, 5));
    mix(v, 3, 7, 11, 15, pick(m, i, 6), pick(m, i, 7));
}

// The second half of the round i.
fn mix_diagonals(v: &mut [u64; 16], m: &[u64; 16], i: usize)
    ensures { v.new ≡ diagonals m.now v.old i }
{
    mix(v, 0, 5, 10, 15, pick(m, i, 8), pick(m, i, 9));
    mix(v, 1, 6, 11, 12, pick(m, i, 10), pick(m, i, 11));
    mix(v, 2, 7, 8, 13, pick(m, i, 12), pick(m, i, 13));
    mix(v, 3, 4, 9, 14, pick(m, i, 14), pick(m, i, 15));
}

// All twelve rounds, written out: a loop over them is slower (docs/PERFORMANCE.md).
fn all_rounds(v: &mut [u64; 16], m: &[u64; 16])
    ensures { v.new ≡ rounds 12 m.now v.old }
{
    mix_columns(v, m, 0);
    mix_diagonals(v, m, 0);
    mix_columns(v, m, 1);
    mix_diagonals(v, m, 1);
    mix_columns(v, m, 2);
    mix_diagonals(v, m, 2);
    mix_columns(v, m, 3);
    mix_diagonals(v, m, 3);
    mix_columns(v, m, 4);
    mix_diagonals(v, m, 4);
    mix_columns(v, m, 5);
    mix_diagonals(v, m, 5);
    mix_columns(v, m, 6);
    mix_diagonals(v, m, 6);
    mix_columns(v, m, 7);
    mix_diagonals(v, m, 7);
    mix_columns(v, m, 8);
    mix_diagonals(v, m, 8);
    mix_columns(v, m, 9);
    mix_diagonals(v, m, 9);
    mix_columns(v, m, 10);
    mix_diagonals(v, m, 10);
    mix_columns(v, m, 11);
    mix_diagonals(v, m, 11);
}

// The work vector at the start, from the two words of the offset counter and the flag.
fn work_vector(h: &[u64; 8], low: u64, high: u64, flag: u64) -> [u64; 16]
    ensures { result ≡ work h.now low high flag }
{
    [
        h[0],
        h[1],
        h[2],
        h[3],
        h[4],
        h[5],
        h[6],
        h[7],
        IV[0],
        IV[1],
        IV[2],
        IV[3],
        IV[4] ^ low,
        IV[5] ^ high,
        IV[6] ^ flag,
        IV[7],
    ]
}

// The state xored with both halves of the work vector.
fn fold(h: &[u64; 8], v: &[u64; 16]) -> [u64; 8]
    ensures { result ≡ folded h.now v.now }
{
    array::from_fn(|i| h[i] ^ v[i] ^ v[i + 8])
}

// F, with the standard's flag f as `last`.
fn f(h: &[u64; 8], m: &[u64; 16], t: u128, last: bool) -> [u64; 8]
    ensures { result ≡ F h.now m.now t last }
{
    let low = (t % (1 << 64)) as u64;
    let high = (t >> 64) as u64;
    let mut v = work_vector(h, low, high, if last { u64::MAX } else { 0 });
    all_rounds(&mut v, m);
    fold(h, &v)
}

// F on bytes.
fn f_bytes(chaining: &[u8], block: &[u8], t: u128, last: bool, place: &mut [u8])
    requires { (length chaining.now ≡ 64) × ((length block.now ≡ 128) × (length place.old ≡ 64)) }
    ensures { place.new ≡ compressed chaining.now block.now t last }
{
    let mut h = [0u64; 8];
    load(chaining, &mut h);
    let mut m = [0u64; 16];
    load(block, &mut m);
    store(&f(&h, &m, t, last), place);
}

// Function F: the state of 64 bytes after a block of 128, where `t` counts the message's bytes up to the block's end and
// `last` says that no block follows.
pub fn blake2b_f(
    chaining: &[u8],
    block: &[u8],
    t: u128,
    last: bool,
    place: &mut [u8],
) -> Result<(), Refusal>
    ensures verdict { result ≡ F_verdict chaining.now block.now place.old }
    ensures after { place.new ≡ left result place.old (compressed chaining.now block.now t last) }
{
    if chaining.len() != 64 || block.len() != 128 || place.len() != 64 {
        return Err(Refusal::PlaceLength);
    }
    f_bytes(chaining, block, t, last, place);
    Ok(())
}

// F at the offset counter 128, of the block that a key and a message block make.
fn f_keyed(key: &[u8], chaining: &[u8], message: &[u8], place: &mut [u8])
    requires { (length key.now ≤ 64) × ((length chaining.now ≡ 64) × ((length message.now ≡ 64) × (length place.old ≡ 64))) }
    ensures { place.new ≡ blake2b key.now chaining.now message.now }
{
    let mut block = [0u8; 128];
    keyed(key, message, &mut block);
    f_bytes(chaining, &block, 128, false, place);
}

#[derive(Clone, Copy, Debug, PartialEq, Eq)]
pub struct Blake2b {}

impl Compression for Blake2b {
    ghost KIND = { 2 };

    const KIND: u8 = 2;

    ghost BLOCK_LEN = { 64 };

    const BLOCK_LEN: usize = 64;

    ghost SHORTEST_KEY = { 16 };

    const SHORTEST_KEY: usize = 16;

    ghost LONGEST_KEY = { 64 };

    const LONGEST_KEY: usize = 64;

    ghost meaning = { blake2b };

    ghost numbered = { Prim.search rules };

    ghost blocked = { Prim.search rules };

    ghost ranged = { Prim.search rules };

    ghost sized = { unfold blake2b compressed F folded in λ key chaining message. refl };

    ghost bytes = { unfold blake2b compressed F folded in λ key chaining message. Prim.search rules };

    fn compress(
        key: &[u8],
        chaining: &[u8],
        message: &[u8],
        place: &mut [u8],
    ) -> Result<(), Refusal> {
        tested(
            Self::BLOCK_LEN,
            Self::SHORTEST_KEY,
            Self::LONGEST_KEY,
            key,
            chaining,
            message,
            place,
        )?;
        f_keyed(key, chaining, message, place);
        Ok(())
    }
}
