// A key, and the compression under it.
ghost use Rattle.std.specs.Prelude.{◌≡◌, ◌≤◌, length};
ghost use Rattle.sealing.specs.Strings.{◌⊕◌};

use crate::bytes::sum;
use compression::Compression;
use std::marker::PhantomData;

// A key that the compression takes.
#[derive(Drop)]
pub(crate) struct Key<'k, C: Compression> {
    pub(crate) bytes: &'k [u8],
    of: PhantomData<C>,
    ghost long: { C.Compression.SHORTEST_KEY ≤ length bytes.now },
    ghost short: { length bytes.now ≤ C.Compression.LONGEST_KEY },
}

impl<'k, C: Compression> Key<'k, C> {
    pub(crate) fn new(bytes: &'k [u8]) -> Self
        requires { (C.Compression.SHORTEST_KEY ≤ length bytes.now) × (length bytes.now ≤ C.Compression.LONGEST_KEY) }
        ensures { result.bytes.now ≡ bytes.now }
    {
        Key {
            bytes,
            of: PhantomData,
        }
    }

    // The compression, where the blocks have lengths that it takes.
    pub(crate) fn compress(&self, chaining: &[u8], message: &[u8], place: &mut [u8])
        requires { (length chaining.now ≡ C.Compression.BLOCK_LEN) × (length message.now ≡ C.Compression.BLOCK_LEN) × (length place.old ≡ C.Compression.BLOCK_LEN) }
        ensures { place.new ≡ C.Compression.meaning self.now.bytes.now chaining.now message.now }
    {
        C::compress(self.bytes, chaining, message, place).unwrap();
    }

    // Compresses a message block into the chaining value, with the mask added to it.
    pub(crate) fn fold(&self, mask: &[u8], message: &[u8], chaining: &mut [u8])
        requires { (length mask.now ≡ C.Compression.BLOCK_LEN) × (length message.now ≡ C.Compression.BLOCK_LEN) × (length chaining.old ≡ C.Compression.BLOCK_LEN) }
        ensures { chaining.new ≡ C.Compression.meaning self.now.bytes.now (chaining.old ⊕ mask.now) message.now }
    {
        let b = C::BLOCK_LEN;
        let mut masked = [0u8; 64];
        sum(&mut masked[..b], chaining, mask);
        self.compress(&masked[..b], message, chaining);
    }
}
