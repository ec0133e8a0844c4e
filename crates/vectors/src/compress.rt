// The compression of a kind, by its number.
ghost use Rattle.std.specs.Prelude.{◌≡◌};
ghost use Rattle.vectors.specs.ByKind.{compressed as block, by_kind, at_front};

use compression::{Blake2b, Compression, Kind, Sha256};
use refusal::Refusal;

// Compresses to the front of the place, and answers the bytes of a block.
fn compress_front<C: Compression>(
    key: &[u8],
    chaining: &[u8],
    message: &[u8],
    place: &mut [u8; 64],
) -> Result<usize, Refusal>
    ensures { at_front result place.new ≡ block C.Compression.BLOCK_LEN C.Compression.SHORTEST_KEY C.Compression.LONGEST_KEY C.Compression.meaning key.now chaining.now message.now }
{
    let b = C::BLOCK_LEN;
    C::compress(key, chaining, message, &mut place[0..b])?;
    Ok(b)
}

// The same for the number of a kind.
pub(crate) fn compressed(
    kind: u32,
    key: &[u8],
    chaining: &[u8],
    message: &[u8],
    place: &mut [u8; 64],
) -> Result<usize, Refusal>
    ensures { at_front result place.new ≡ by_kind kind key.now chaining.now message.now }
{
    match Kind::try_from(kind)? {
        Kind::Sha256 => compress_front::<Sha256>(key, chaining, message, place),
        Kind::Blake2b => compress_front::<Blake2b>(key, chaining, message, place),
    }
}
