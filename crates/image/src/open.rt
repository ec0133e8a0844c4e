// Opening a card image.
ghost use Rattle.std.specs.Prelude.{◌≡◌, ℕ, List, Result};
ghost use Rattle.refusal.specs.declared.Refusal.{Refusal};
ghost use Rattle.image.specs.Open.{open_answer, open_place, answer_by_kind, place_by_kind};
ghost use Rattle.image.specs.Laws.{OpensWhatWasBuilt};

use crate::layout::{SITE_AT, STATION_AT};
use crate::reader::{cut, look_tested};
use compression::{Blake2b, Compression, Kind, Sha256, key_tested};
use refusal::Refusal;
use sealing::open;

// Opening answers a message exactly when building it gives the image: a proof and no code.
fn exact<C: Compression>(key: &[u8], image: &[u8])
    ensures { (place after : List ℕ) (r : Result ℕ Refusal) → r ≡ open_answer C.Compression.KIND C.Compression.BLOCK_LEN C.Compression.SHORTEST_KEY C.Compression.LONGEST_KEY C.Compression.meaning key.now image.now place → after ≡ open_place C.Compression.KIND C.Compression.BLOCK_LEN C.Compression.SHORTEST_KEY C.Compression.LONGEST_KEY C.Compression.meaning key.now image.now place → OpensWhatWasBuilt C.Compression.KIND C.Compression.BLOCK_LEN C.Compression.SHORTEST_KEY C.Compression.LONGEST_KEY C.Compression.meaning key.now image.now place r after }
{}

// Opens, as the definitions say. It stands apart so that the public call needs no proof file.
fn open_named<C: Compression>(key: &[u8], image: &[u8], place: &mut [u8]) -> Result<usize, Refusal>
    ensures answer { result ≡ open_answer C.Compression.KIND C.Compression.BLOCK_LEN C.Compression.SHORTEST_KEY C.Compression.LONGEST_KEY C.Compression.meaning key.now image.now place.old }
    ensures place { place.new ≡ open_place C.Compression.KIND C.Compression.BLOCK_LEN C.Compression.SHORTEST_KEY C.Compression.LONGEST_KEY C.Compression.meaning key.now image.now place.old }
{
    key_tested::<C>(key)?;
    look_tested(u32::from(C::KIND), image)?;
    let parts = cut(image);
    if place.len() < parts.ciphertext.bytes.len() {
        return Err(Refusal::PlaceLength);
    }
    let nonce = &image[SITE_AT..STATION_AT];
    let data = &image[..parts.ciphertext.at];
    open::<C>(
        key,
        nonce,
        data,
        parts.ciphertext.bytes,
        parts.tag.bytes,
        place,
    )
}

// Opens a card image: looks at it for the compression's kind, checks its tag under the key, writes the message to the front of
// the place and answers its length. Where the tag is not the right one, the front of the place is zeroed, as many bytes as
// the message would have.
pub fn open_image<C: Compression>(
    key: &[u8],
    image: &[u8],
    place: &mut [u8],
) -> Result<usize, Refusal>
    ensures answer { result ≡ open_answer C.Compression.KIND C.Compression.BLOCK_LEN C.Compression.SHORTEST_KEY C.Compression.LONGEST_KEY C.Compression.meaning key.now image.now place.old }
    ensures place { place.new ≡ open_place C.Compression.KIND C.Compression.BLOCK_LEN C.Compression.SHORTEST_KEY C.Compression.LONGEST_KEY C.Compression.meaning key.now image.now place.old }
    ensures built { OpensWhatWasBuilt C.Compression.KIND C.Compression.BLOCK_LEN C.Compression.SHORTEST_KEY C.Compression.LONGEST_KEY C.Compression.meaning key.now image.now place.old result place.new }
{
    exact::<C>(key, image);
    open_named::<C>(key, image, place)
}

// The same for the number of a kind. An image of a kind that there is no compression for is only looked at, which refuses it.
pub fn open_image_by_kind(
    kind: u32,
    key: &[u8],
    image: &[u8],
    place: &mut [u8],
) -> Result<usize, Refusal>
    ensures answer { result ≡ answer_by_kind kind key.now image.now place.old }
    ensures place { place.new ≡ place_by_kind kind key.now image.now place.old }
{
    match Kind::try_from(kind) {
        Ok(Kind::Sha256) => open_image::<Sha256>(key, image, place),
        Ok(Kind::Blake2b) => open_image::<Blake2b>(key, image, place),
        Err(refusal) => {
            look_tested(kind, image)?;
            Err(refusal)
        }
    }
}
