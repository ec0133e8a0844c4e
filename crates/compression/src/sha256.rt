// Kind 1: the compression function of SHA-256 (FIPS 180-4), keyed by the first half of its block.
ghost use Rattle.std.specs.Prelude.{◌≡◌, ℕ, ◌+◌, ◌-◌, ◌<◌, ◌≤◌, List, ◌++◌, map, length, take, drop, if◌then◌else◌, Some, None, nat_lt, slice_index};
ghost use Rattle.std.proofs.Math.Path.{refl};
ghost use Rattle.compression.specs.Sha256.{ROTR, Ch, Maj, Σ0, Σ1, σ0, σ1, K as constants, schedule, round, rounds, variables, sums, hashed, next_hash};
ghost use Rattle.compression.specs.Roots.{First64Primes, KFromCubeRoots, H0FromSquareRoots};
ghost use Rattle.compression.specs.Examples.{Sha256Example};
ghost use Rattle.compression.specs.Keyed.{sha256};
ghost use borrow.Author.Rules.{rules};

use crate::words::{keyed, load, store};
use crate::{Compression, tested};
use refusal::Refusal;
use std::simd::u32x4;

// one constant for each round
const K: [u32; 64] = [
    0x428a2f98, 0x71374491, 0xb5c0fbcf, 0xe9b5dba5, 0x3956c25b, 0x59f111f1, 0x923f82a4, 0xab1c5ed5,
    0xd807aa98, 0x12835b01, 0x243185be, 0x550c7dc3, 0x72be5d74, 0x80deb1fe, 0x9bdc06a7, 0xc19bf174,
    0xe49b69c1, 0xefbe4786, 0x0fc19dc6, 0x240ca1cc, 0x2de92c6f, 0x4a7484aa, 0x5cb0a9dc, 0x76f988da,
    0x983e5152, 0xa831c66d, 0xb00327c8, 0xbf597fc7, 0xc6e00bf3, 0xd5a79147, 0x06ca6351, 0x14292967,
    0x27b70a85, 0x2e1b2138, 0x4d2c6dfc, 0x53380d13, 0x650a7354, 0x766a0abb, 0x81c2c92e, 0x92722c85,
    0xa2bfe8a1, 0xa81a664b, 0xc24b8b70, 0xc76c51a3, 0xd192e819, 0xd6990624, 0xf40e3585, 0x106aa070,
    0x19a4c116, 0x1e376c08, 0x2748774c, 0x34b0bcb5, 0x391c0cb3, 0x4ed8aa4a, 0x5b9cca4f, 0x682e6ff3,
    0x748f82ee, 0x78a5636f, 0x84c87814, 0x8cc70208, 0x90befffa, 0xa4506ceb, 0xbef9a3f7, 0xc67178f2,
];

// What FIPS 180-4 says of the constants and of the first hash value, and its example of one block: a proof and no code.
fn as_published()
    ensures roots { KFromCubeRoots }
    ensures start { H0FromSquareRoots }
    ensures primes { First64Primes }
    ensures example { Sha256Example }
{}

// The constant of the round t. By a function, so that a proof has the table's name and not its 64 numbers.
fn constant(t: usize) -> u32
    requires { t < 64 }
    ensures { result ≡ slice_index constants t }
{
    K[t]
}

// The constant of the round t, where there is such a round. (As `get` and `copied` it would need a proof file.) Each constant
// is from the cube root of its prime, as the first hash value is from square roots; the primes are the first 64; and the
// definition that the compression is proved to meet gives the published example.
pub fn round_constant(t: usize) -> Option<u32>
    ensures value { result ≡ (if nat_lt t 64 then Some (slice_index constants t) else None) }
    ensures roots { KFromCubeRoots }
    ensures start { H0FromSquareRoots }
    ensures primes { First64Primes }
    ensures example { Sha256Example }
{
    as_published();
    if t < 64 { Some(K[t]) } else { None }
}

// the working variables of a round
#[derive(Clone, Copy)]
pub(crate) struct Variables {
    pub(crate) a: u32,
    pub(crate) b: u32,
    pub(crate) c: u32,
    pub(crate) d: u32,
    pub(crate) e: u32,
    pub(crate) f: u32,
    pub(crate) g: u32,
    pub(crate) h: u32,
}

// One operation less than (x & y) ^ (!x & z).
fn ch(x: u32, y: u32, z: u32) -> u32
    ensures { result ≡ Ch x y z }
{
    z ^ (x & (y ^ z))
}

fn maj(x: u32, y: u32, z: u32) -> u32
    ensures { result ≡ Maj x y z }
{
    (x & y) ^ (x & z) ^ (y & z)
}

fn big_sigma0(x: u32) -> u32
    ensures { result ≡ Σ0 x }
{
    x.rotate_right(2) ^ x.rotate_right(13) ^ x.rotate_right(22)
}

fn big_sigma1(x: u32) -> u32
    ensures { result ≡ Σ1 x }
{
    x.rotate_right(6) ^ x.rotate_right(11) ^ x.rotate_right(25)
}

fn one_round(v: Variables, k: u32, w: u32) -> Variables
    ensures { result ≡ round v k w }
{
    let t1 = v
        .h
        .wrapping_add(big_sigma1(v.e))
        .wrapping_add(ch(v.e, v.f, v.g))
        .wrapping_add(k)
        .wrapping_add(w);
    let t2 = big_sigma0(v.a).wrapping_add(maj(v.a, v.b, v.c));
    Variables {
        a: t1.wrapping_add(t2),
        b: v.a,
        c: v.b,
        d: v.c,
        e: v.d.wrapping_add(t1),
        f: v.e,
        g: v.f,
        h: v.g,
    }
}

// The rounds T to T + 3. A constant parameter, so that each use is compiled by itself.
fn four_rounds<const T: usize>(v: Variables, w: &[u32; 64]) -> Variables
    requires { T + 4 ≤ 64 }
    ensures { (v₀ : Variables) → v ≡ rounds T w.now v₀ → result ≡ rounds (T + 4) w.now v₀ }
{
    let v = one_round(v, constant(T), w[T]);
    let v = one_round(v, constant(T + 1), w[T + 1]);
    let v = one_round(v, constant(T + 2), w[T + 2]);
    let v = one_round(v, constant(T + 3), w[T + 3]);
    v
}

// All 64 rounds, written out: a loop over them is slower (docs/PERFORMANCE.md).
fn all_rounds(v: Variables, w: &[u32; 64]) -> Variables
    ensures { result ≡ rounds 64 w.now v }
{
    let v = four_rounds::<0>(v, w);
    let v = four_rounds::<4>(v, w);
    let v = four_rounds::<8>(v, w);
    let v = four_rounds::<12>(v, w);
    let v = four_rounds::<16>(v, w);
    let v = four_rounds::<20>(v, w);
    let v = four_rounds::<24>(v, w);
    let v = four_rounds::<28>(v, w);
    let v = four_rounds::<32>(v, w);
    let v = four_rounds::<36>(v, w);
    let v = four_rounds::<40>(v, w);
    let v = four_rounds::<44>(v, w);
    let v = four_rounds::<48>(v, w);
    let v = four_rounds::<52>(v, w);
    let v = four_rounds::<56>(v, w);
    let v = four_rounds::<60>(v, w);
    v
}

// Each lane rotated to the right by n bits, by two shifts since vectors have no rotation.
fn rotated(x: u32x4, n: u32) -> u32x4
    requires { (0 < n) × (n < 32) }
    ensures { result ≡ map (ROTR n) x }
{
    (x >> u32x4::splat(n)) | (x << u32x4::splat(32 - n))
}

// σ0 of each lane.
fn small_sigma0(x: u32x4) -> u32x4
    ensures { result ≡ map σ0 x }
{
    rotated(x, 7) ^ rotated(x, 18) ^ (x >> u32x4::splat(3))
}

// σ1 of each lane.
fn small_sigma1(x: u32x4) -> u32x4
    ensures { result ≡ map σ1 x }
{
    rotated(x, 17) ^ rotated(x, 19) ^ (x >> u32x4::splat(10))
}

// The four words after the sixteen of a, b, c and d. The last two rest on the first two, so these come first.
fn next_four(a: u32x4, b: u32x4, c: u32x4, d: u32x4) -> u32x4
    ensures { a ++ b ++ c ++ d ++ result ≡ schedule 4 (a ++ b ++ c ++ d) }
{
    let s = a + small_sigma0(a.shuffle(b, [1, 2, 3, 4])) + c.shuffle(d, [1, 2, 3, 4]);
    let low = s + small_sigma1(d.swizzle([2, 3, 2, 3]));
    let high = s + small_sigma1(low.swizzle([0, 1, 0, 1]));
    low.shuffle(high, [0, 1, 6, 7])
}

// The four words from the word i on, as lanes.
fn lanes(w: &[u32; 64], i: usize) -> u32x4
    requires { i + 4 ≤ 64 }
    ensures { result ≡ take 4 (drop i w.now) }
{
    u32x4::from_slice(&w[i..i + 4])
}

// The words t to t + 3 of the schedule.
fn four_words(w: &mut [u32; 64], t: usize)
    requires { (16 ≤ t) × (t + 4 ≤ 64) }
    ensures { (m : List ℕ) → take t w.old ≡ schedule (t - 16) m → take (t + 4) w.new ≡ schedule (t + 4 - 16) m }
{
    let words = next_four(
        lanes(w, t - 16),
        lanes(w, t - 12),
        lanes(w, t - 8),
        lanes(w, t - 4),
    );
    words.copy_to_slice(&mut w[t..t + 4]);
}

// The words 16 to 63 of the schedule, written out as the rounds are.
fn expand(w: &mut [u32; 64])
    ensures { w.new ≡ schedule 48 (take 16 w.old) }
{
    four_words(w, 16);
    four_words(w, 20);
    four_words(w, 24);
    four_words(w, 28);
    four_words(w, 32);
    four_words(w, 36);
    four_words(w, 40);
    four_words(w, 44);
    four_words(w, 48);
    four_words(w, 52);
    four_words(w, 56);
    four_words(w, 60);
}

// The working variables at the start are the words of the hash value.
impl From<[u32; 8]> for Variables {
    ghost from_gives = { λ h v. v ≡ variables h };

    fn from(h: [u32; 8]) -> Variables {
        Variables {
            a: h[0],
            b: h[1],
            c: h[2],
            d: h[3],
            e: h[4],
            f: h[5],
            g: h[6],
            h: h[7],
        }
    }
}

// The final addition.
fn add_up(v: Variables, u: Variables) -> [u32; 8]
    ensures { result ≡ sums v u }
{
    [
        v.a.wrapping_add(u.a),
        v.b.wrapping_add(u.b),
        v.c.wrapping_add(u.c),
        v.d.wrapping_add(u.d),
        v.e.wrapping_add(u.e),
        v.f.wrapping_add(u.f),
        v.g.wrapping_add(u.g),
        v.h.wrapping_add(u.h),
    ]
}

// The hash value after `block`, from the one before it.
fn hash_block(chaining: &[u8], block: &[u8], place: &mut [u8])
    requires { (length chaining.now ≡ 32) × ((length block.now ≡ 64) × (length place.old ≡ 32)) }
    ensures { place.new ≡ hashed chaining.now block.now }
{
    let mut h = [0u32; 8];
    load(chaining, &mut h);
    let mut w = [0u32; 64];
    load(block, &mut w[0..16]);
    expand(&mut w);
    let v = Variables::from(h);
    store(&add_up(v, all_rounds(v, &w)), place);
}

// The same, of the block that a key and a message block make. BLAKE2b's differs in all but its shape.
fn hash_keyed(key: &[u8], chaining: &[u8], message: &[u8], place: &mut [u8])
    requires { (length key.now ≤ 32) × ((length chaining.now ≡ 32) × ((length message.now ≡ 32) × (length place.old ≡ 32))) }
    ensures { place.new ≡ sha256 key.now chaining.now message.now }
{
    let mut block = [0u8; 64];
    keyed(key, message, &mut block);
    hash_block(chaining, &block, place);
}

#[derive(Clone, Copy, Debug, PartialEq, Eq)]
pub struct Sha256 {}

impl Compression for Sha256 {
    ghost KIND = { 1 };

    const KIND: u8 = 1;

    ghost BLOCK_LEN = { 32 };

    const BLOCK_LEN: usize = 32;

    ghost SHORTEST_KEY = { 16 };

    const SHORTEST_KEY: usize = 16;

    ghost LONGEST_KEY = { 32 };

    const LONGEST_KEY: usize = 32;

    ghost meaning = { sha256 };

    ghost numbered = { Prim.search rules };

    ghost blocked = { Prim.search rules };

    ghost ranged = { Prim.search rules };

    ghost sized = { unfold sha256 hashed next_hash in λ key chaining message. refl };

    ghost bytes = { unfold sha256 hashed next_hash in λ key chaining message. Prim.search rules };

    fn compress(
        key: &[u8],
        chaining: &[u8],
        message: &[u8],
        place: &mut [u8],
    ) -> Result<(), Refusal> {
        tested(
            Self::BLOCK_LEN,
            Self::SHORTEST_KEY,
            Self::LONGEST_KEY,
            key,
            chaining,
            message,
            place,
        )?;
        hash_keyed(key, chaining, message, place);
        Ok(())
    }
}
