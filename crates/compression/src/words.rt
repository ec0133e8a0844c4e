// Words read from bytes and written to them, and the block that a key and a message block make.
ghost use Rattle.std.specs.Prelude.{◌≡◌, ℕ, ◌+◌, ◌*◌, ◌≤◌, List, length, replicate};
ghost use Rattle.std.specs.List.{flat_map};
ghost use Rattle.std.proofs.Common.{rules};
ghost use Rattle.compression.specs.Words.{from_be, from_le, to_be, to_le, words};
ghost use Rattle.compression.specs.Keyed.{keyed_block};

// A word of a hash function, which lies in bytes in the function's own byte order.
pub(crate) trait Word: Copy {
    // how many bytes it has
    ghost SIZE: { ℕ };

    const SIZE: usize;
    // the word that so many bytes stand for, and the bytes of a word
    ghost read: { List ℕ → Self };

    ghost written: { Self → List ℕ };

    fn read(bytes: &[u8]) -> Self
        requires { length bytes.now ≡ SIZE }
        ensures { result ≡ read bytes.now };

    fn write(self, place: &mut [u8])
        requires { length place.old ≡ SIZE }
        ensures { place.new ≡ written self };

    ghost sized: { (x : Self) → length (written x) ≡ SIZE };
}

// SHA-256's words, big-endian.
impl Word for u32 {
    ghost SIZE = { 4 };

    const SIZE: usize = 4;

    ghost read = { from_be };

    ghost written = { to_be 4 };

    ghost sized = { λ x. Prim.search rules };

    fn read(bytes: &[u8]) -> u32 {
        u32::from_be_bytes(*bytes.first_chunk().unwrap())
    }

    fn write(self, place: &mut [u8]) {
        place.copy_from_slice(&self.to_be_bytes());
    }
}

// BLAKE2b's words, little-endian.
impl Word for u64 {
    ghost SIZE = { 8 };

    const SIZE: usize = 8;

    ghost read = { from_le };

    ghost written = { to_le 8 };

    ghost sized = { λ x. Prim.search rules };

    fn read(bytes: &[u8]) -> u64 {
        u64::from_le_bytes(*bytes.first_chunk().unwrap())
    }

    fn write(self, place: &mut [u8]) {
        place.copy_from_slice(&self.to_le_bytes());
    }
}

// Fills `out` with the words at the front of `bytes`. The words' places are worked out: of what is written through
// `iter_mut().zip(..)` a proof knows nothing.
pub(crate) fn load<W: Word>(bytes: &[u8], out: &mut [W])
    requires { W.SIZE * length out.old ≤ length bytes.now }
    ensures { out.new ≡ words W.read W.SIZE (length out.old) bytes.now }
{
    for (i, word) in out.iter_mut().enumerate() {
        let at = W::SIZE * i;
        *word = W::read(&bytes[at..at + W::SIZE]);
    }
}

// Fills `place` with the bytes of eight words, their places worked out as in `load`.
pub(crate) fn store<W: Word>(ws: &[W; 8], place: &mut [u8])
    requires { length place.old ≡ 8 * W.SIZE }
    ensures { place.new ≡ flat_map W.written ws.now }
{
    for (i, word) in ws.iter().enumerate() {
        let at = W::SIZE * i;
        word.write(&mut place[at..at + W::SIZE]);
    }
}

// The key at the front of a block of zeros, and the message block in its second half.
pub(crate) fn keyed(key: &[u8], message: &[u8], block: &mut [u8])
    requires { (length key.now ≤ length message.now) × (block.old ≡ replicate (length message.now + length message.now) 0) }
    ensures { block.new ≡ keyed_block (length message.now) key.now message.now }
{
    let b = message.len();
    block[0..key.len()].copy_from_slice(key);
    block[b..b + b].copy_from_slice(message);
}
