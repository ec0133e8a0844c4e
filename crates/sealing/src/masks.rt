// The masks of OMD, worked out once for a call.
ghost use Rattle.std.specs.Prelude.{◌≡◌, ℕ, ◌^◌, ◌<◌, ◌≤◌, ◌⊎◌, [], length, take, slice_index_or};
ghost use Rattle.sealing.specs.Strings.{◌⊕◌};
ghost use Rattle.sealing.specs.Double.{double};
ghost use Rattle.sealing.specs.Omd.{L⋆, L, ntz};
ghost use Rattle.sealing.specs.Parts.{doublings};

use crate::bytes::add;
use crate::doubling::double_block;
use crate::key::Key;
use compression::Compression;

// A key and its masks. Of each mask the first bytes count, as many as a block has: here, and wherever a block is kept in 64
// bytes, since no array's length can be a constant of the trait.
#[derive(Drop)]
pub(crate) struct Masks<'k, C: Compression> {
    pub(crate) key: Key<'k, C>,
    // the highest block number that the rows serve: no code reads it, but a fact of the type can speak of fields alone
    most: usize,
    // L⋆
    pub(crate) once: [u8; 64],
    // twice L⋆
    pub(crate) twice: [u8; 64],
    // L(0), L(1) and so on, as far as they are needed: the longest texts need twelve
    rows: [[u8; 64]; 12],
    ghost small: { most < 4096 },
    ghost once_is: { take C.Compression.BLOCK_LEN once ≡ L⋆ C.Compression.BLOCK_LEN (C.Compression.meaning key.bytes.now) },
    ghost twice_is: { take C.Compression.BLOCK_LEN twice ≡ double (L⋆ C.Compression.BLOCK_LEN (C.Compression.meaning key.bytes.now)) },
    ghost rows_are: { (i : ℕ) → 1 ≤ i → i ≤ most → take C.Compression.BLOCK_LEN (slice_index_or rows (ntz i) []) ≡ L C.Compression.BLOCK_LEN (C.Compression.meaning key.bytes.now) (ntz i) },
}

// How many rows the block numbers up to `most` select.
fn rows_needed(most: usize) -> usize
    requires { most < 4096 }
    ensures enough { most < 2 ^ result }
    ensures few { result ≤ 12 }
{
    64 - most.leading_zeros() as usize
}

// The rows, from twice L⋆: each is the double of the one before.
fn fill_rows(rows: &mut [[u8; 64]], b: usize, twice: &[u8; 64])
    requires { (b ≡ 32) ⊎ (b ≡ 64) }
    ensures { (i : ℕ) → i < length rows.old → take b (slice_index_or rows.new i []) ≡ doublings i (take b twice.now) }
{
    let mut last = *twice;
    for row in rows.iter_mut() {
        double_block(&mut last[..b]);
        *row = last;
    }
}

impl<'k, C: Compression> Masks<'k, C> {
    // Works out the masks for block numbers up to `most`.
    pub(crate) fn work_out(key: Key<'k, C>, most: usize) -> Self
        requires { most < 4096 }
        ensures key { result.key.bytes.now ≡ key.entry.bytes.now }
        ensures most { result.most ≡ most }
    {
        let b = C::BLOCK_LEN;
        let zeros = [0u8; 64];
        let mut once = [0u8; 64];
        key.compress(&zeros[..b], &zeros[..b], &mut once[..b]);
        let mut twice = once;
        double_block(&mut twice[..b]);
        let mut rows = [[0u8; 64]; 12];
        fill_rows(&mut rows[..rows_needed(most)], b, &twice);
        Masks {
            key,
            most,
            once,
            twice,
            rows,
        }
    }

    // Adds the mask that a block's number selects.
    pub(crate) fn add_row(&self, number: usize, to: &mut [u8])
        requires number { (1 ≤ number) × (number ≤ self.now.most) }
        requires block { length to.old ≡ C.Compression.BLOCK_LEN }
        ensures { to.new ≡ to.old ⊕ L C.Compression.BLOCK_LEN (C.Compression.meaning self.now.key.bytes.now) (ntz number) }
    {
        let b = to.len();
        // by a name of their own: the check does not yet follow an element that is lent out of a field beside a reference
        let rows = &self.rows;
        let k = number.trailing_zeros() as usize;
        add(to, &rows[k][..b]);
    }
}
