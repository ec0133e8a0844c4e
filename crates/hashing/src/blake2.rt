// BLAKE2b-512 without a key (RFC 7693) over function F.
ghost use Rattle.std.specs.Prelude.{◌≡◌, ◌+◌, ◌-◌, ◌*◌, ◌/◌, ◌≤◌, length, slice_index};
ghost use Rattle.compression.specs.Blake2b.{compressed};
ghost use Rattle.hashing.specs.Blake2.{padded, block as block_of, final_state, blake2b};

use compression::blake2b_f;

// the state before the first block: the initial value, told of a digest of 64 bytes and of no key
const H0: [u8; 64] = [
    0x48, 0xc9, 0xbd, 0xf2, 0x67, 0xe6, 0x09, 0x6a, 0x3b, 0xa7, 0xca, 0x84, 0x85, 0xae, 0x67, 0xbb,
    0x2b, 0xf8, 0x94, 0xfe, 0x72, 0xf3, 0x6e, 0x3c, 0xf1, 0x36, 0x1d, 0x5f, 0x3a, 0xf5, 0x4f, 0xa5,
    0xd1, 0x82, 0xe6, 0xad, 0x7f, 0x52, 0x0e, 0x51, 0x1f, 0x6c, 0x3e, 0x2b, 0x8c, 0x68, 0x05, 0x9b,
    0x6b, 0xbd, 0x41, 0xfb, 0xab, 0xd9, 0x83, 0x1f, 0x79, 0x21, 0x7e, 0x13, 0x19, 0xcd, 0xe0, 0x5b,
];

// The byte k of the padded message.
#[tactic(auto, unfolding(crate::specs::Blake2::padded))]
fn padded_byte(message: &[u8], k: usize) -> u8
    ensures { result ≡ slice_index (padded message.now) k }
{
    message.get(k).copied().unwrap_or(0)
}

// The block i of the padded message.
fn padded_block(message: &[u8], i: usize) -> [u8; 128]
    requires { 128 * i + 128 ≤ length (padded message.now) }
    ensures { result ≡ block_of (padded message.now) i }
{
    std::array::from_fn(|j| padded_byte(message, 128 * i + j))
}

// The number of the last block of the padded message.
#[tactic(auto, using(crate::proofs::Blake2Padding::padded_length))]
fn last_block(message: &[u8]) -> usize
    ensures value { result ≡ length (padded message.now) / 128 - 1 }
    ensures within { 128 * result + 128 ≤ length (padded message.now) }
{
    message.len().saturating_sub(1) / 128
}

// One block more.
fn absorb(h: &[u8; 64], block: &[u8; 128], t: u128, last: bool) -> [u8; 64]
    ensures { result ≡ compressed h.now block.now t last }
{
    let mut next = [0u8; 64];
    blake2b_f(h, block, t, last, &mut next).unwrap();
    next
}

// The state after the block `last`, the last one, of the padded message. The loop counts block numbers, as the padded message
// stands nowhere in memory; `as` widens them, as no `From` takes a `usize` to a `u128`.
#[tactic(auto, unfolding(crate::specs::Blake2::state_after, crate::specs::Blake2::final_state))]
fn hash_blocks(message: &[u8], last: usize) -> [u8; 64]
    requires { 128 * last + 128 ≤ length (padded message.now) }
    ensures { result ≡ final_state last (length message.now) (padded message.now) }
{
    let mut h = H0;
    for i in 0..last {
        h = absorb(&h, &padded_block(message, i), 128 * (i as u128 + 1), false);
    }
    absorb(
        &h,
        &padded_block(message, last),
        message.len() as u128,
        true,
    )
}

// The digest of a message.
pub fn blake2b(message: &[u8]) -> [u8; 64]
    ensures { result ≡ blake2b message.now }
{
    hash_blocks(message, last_block(message))
}
