// SHA-256 (FIPS 180-4) over the compression of kind 1.
ghost use Rattle.std.specs.Prelude.{◌≡◌, ◌+◌, ◌*◌, ◌/◌, ◌<◌, ◌≤◌, length, slice_index};
ghost use Rattle.compression.specs.Sha256.{hashed};
ghost use Rattle.hashing.specs.Sha2.{padded, block as block_of, hash_after, sha256};

use compression::{Compression, Sha256};

// the hash value before the first block
const H0: [u8; 32] = [
    0x6a, 0x09, 0xe6, 0x67, 0xbb, 0x67, 0xae, 0x85, 0x3c, 0x6e, 0xf3, 0x72, 0xa5, 0x4f, 0xf5, 0x3a,
    0x51, 0x0e, 0x52, 0x7f, 0x9b, 0x05, 0x68, 0x8c, 0x1f, 0x83, 0xd9, 0xab, 0x5b, 0xe0, 0xcd, 0x19,
];

// The byte k of the padded message. `as` widens its length, as no `From` takes a `usize` to a `u64`.
#[tactic(auto, using(crate::proofs::Sha2Padding::in_length), unfolding(crate::specs::Sha2::padded))]
fn padded_byte(message: &[u8], k: usize) -> u8
    requires { k < length (padded message.now) }
    ensures { result ≡ slice_index (padded message.now) k }
{
    let n = message.len();
    let zeros = (119 - n % 64) % 64;
    if k < n {
        message[k]
    } else if k == n {
        0x80
    } else if k - n <= zeros {
        0
    } else {
        (n as u64).wrapping_mul(8).to_be_bytes()[k - n - zeros - 1]
    }
}

// The block i of the padded message.
fn padded_block(message: &[u8], i: usize) -> [u8; 64]
    requires { 64 * i + 64 ≤ length (padded message.now) }
    ensures { result ≡ block_of (padded message.now) i }
{
    std::array::from_fn(|j| padded_byte(message, 64 * i + j))
}

// The blocks of the padded message.
#[tactic(auto, using(crate::proofs::Sha2Padding::padded_length))]
fn block_count(message: &[u8]) -> usize
    ensures { result ≡ length (padded message.now) / 64 }
{
    (message.len() + 9).div_ceil(64)
}

// One block more. A whole block is a key of 32 bytes and a message block, so it is never refused.
fn absorb(h: &[u8; 32], block: &[u8; 64]) -> [u8; 32]
    ensures { result ≡ hashed h.now block.now }
{
    let (key, message) = block.split_at(32);
    let mut next = [0u8; 32];
    Sha256::compress(key, h, message, &mut next).unwrap();
    next
}

// The hash value after the first blocks of the padded message, which stands nowhere in memory.
#[tactic(auto, unfolding(crate::specs::Sha2::hash_after))]
fn hash_blocks(message: &[u8], blocks: usize) -> [u8; 32]
    requires { 64 * blocks ≤ length (padded message.now) }
    ensures { result ≡ hash_after blocks (padded message.now) }
{
    let mut h = H0;
    for i in 0..blocks {
        h = absorb(&h, &padded_block(message, i));
    }
    h
}

// The digest of a message.
pub fn sha256(message: &[u8]) -> [u8; 32]
    ensures { result ≡ sha256 message.now }
{
    hash_blocks(message, block_count(message))
}
