// Sealing and opening with the compression of a kind, by its number.
ghost use Rattle.std.specs.Prelude.{◌≡◌};
ghost use Rattle.vectors.specs.Sealing.{seal_answer, ciphertext_after, tag_after, open_answer, message_after};

use compression::{Blake2b, Kind, Sha256};
use refusal::Refusal;

// Seals to the fronts of the places, and answers the length of the message.
pub(crate) fn sealed(
    kind: u32,
    key: &[u8],
    nonce: &[u8],
    data: &[u8],
    message: &[u8],
    tag_len: usize,
    ciphertext: &mut [u8],
    tag: &mut [u8],
) -> Result<usize, Refusal>
    ensures answer { result ≡ seal_answer kind key.now nonce.now «data».now message.now tag_len ciphertext.old tag.old }
    ensures ciphertext { ciphertext.new ≡ ciphertext_after result kind key.now nonce.now «data».now message.now tag_len ciphertext.old }
    ensures tag { tag.new ≡ tag_after result kind key.now nonce.now «data».now message.now tag_len tag.old }
{
    match Kind::try_from(kind)? {
        Kind::Sha256 => {
            sealing::seal::<Sha256>(key, nonce, data, message, tag_len, ciphertext, tag)
        }
        Kind::Blake2b => {
            sealing::seal::<Blake2b>(key, nonce, data, message, tag_len, ciphertext, tag)
        }
    }
}

// Opens to the front of the place, and answers the length of the message.
pub(crate) fn opened(
    kind: u32,
    key: &[u8],
    nonce: &[u8],
    data: &[u8],
    ciphertext: &[u8],
    tag: &[u8],
    place: &mut [u8],
) -> Result<usize, Refusal>
    ensures answer { result ≡ open_answer kind key.now nonce.now «data».now ciphertext.now tag.now place.old }
    ensures place { place.new ≡ message_after result kind key.now nonce.now ciphertext.now tag.now place.old }
{
    match Kind::try_from(kind)? {
        Kind::Sha256 => sealing::open::<Sha256>(key, nonce, data, ciphertext, tag, place),
        Kind::Blake2b => sealing::open::<Blake2b>(key, nonce, data, ciphertext, tag, place),
    }
}
