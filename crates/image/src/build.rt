// Building a card image.
ghost use Rattle.std.specs.Prelude.{◌≡◌, ◌+◌, ◌≤◌, [], ◌∷◌, ◌++◌, length, Ok};
ghost use Rattle.refusal.specs.Verdict.{answered, left, at_front};
ghost use Rattle.sealing.specs.Omd.{sealed};
ghost use Rattle.sealing.specs.Calls.{seal_verdict};
ghost use Rattle.sealing.specs.Laws.{SealingIsLawful};
ghost use Rattle.image.specs.Image.{nonce, front, image};
ghost use Rattle.image.specs.Open.{build_verdict};
ghost use Rattle.image.specs.Inner.{Buildable};
ghost use Rattle.image.specs.Laws.{BuiltImagesAreRead};

use crate::label::Label;
use crate::layout::{
    HEADER_AT, HEADER_LEN_AT, KIND_AT, LONGEST_HEADER, LONGEST_MESSAGE, MESSAGE_LEN_AT,
    SHORTEST_IMAGE, SITE_AT, STATION_AT, TAG_LEN,
};
use compression::{Compression, key_tested};
use refusal::Refusal;
use sealing::seal;

// The tests of building, in their order. Label, header and message stay apart, as in the public call.
fn build_tested<C: Compression>(
    key: &[u8],
    label: Label,
    header: &[u8],
    message: &[u8],
    place: &[u8],
) -> Result<(), Refusal>
    ensures verdict { result ≡ build_verdict C.Compression.SHORTEST_KEY C.Compression.LONGEST_KEY key.now label header.now message.now place.now }
    ensures fits { result ≡ Ok tt → Buildable C.Compression.SHORTEST_KEY C.Compression.LONGEST_KEY key.now header.now message.now place.now }
{
    key_tested::<C>(key)?;
    if LONGEST_HEADER < header.len() || LONGEST_MESSAGE < message.len() {
        return Err(Refusal::RecordLength);
    }
    if label.is_unlawful() {
        return Err(Refusal::ImageNumber);
    }
    if place.len() < SHORTEST_IMAGE + header.len() + message.len() {
        return Err(Refusal::PlaceLength);
    }
    Ok(())
}

// The bytes before the header.
fn fixed(kind: u8, label: Label, header_len: u8, message_len: u8) -> [u8; HEADER_AT]
    ensures { result ≡ kind ∷ (nonce label ++ (label.station ∷ header_len ∷ message_len ∷ [])) }
{
    let mut bytes = [0u8; HEADER_AT];
    bytes[KIND_AT] = kind;
    bytes[SITE_AT..STATION_AT].copy_from_slice(&label.nonce());
    bytes[STATION_AT] = label.station;
    bytes[HEADER_LEN_AT] = header_len;
    bytes[MESSAGE_LEN_AT] = message_len;
    bytes
}

// Seals a message behind its front, which is the associated data, where nothing objects.
fn seal_behind<C: Compression>(
    key: &[u8],
    label: Label,
    front: &[u8],
    message: &[u8],
    ciphertext: &mut [u8],
    tag: &mut [u8],
)
    requires { seal_verdict C.Compression.BLOCK_LEN C.Compression.SHORTEST_KEY C.Compression.LONGEST_KEY key.now (nonce label) front.now message.now 16 ciphertext.old tag.old ≡ Ok tt }
    ensures ciphertext { ciphertext.new ≡ at_front (sealed C.Compression.BLOCK_LEN (C.Compression.meaning key.now) (nonce label) front.now message.now 16).0 ciphertext.old }
    ensures tag { tag.new ≡ at_front (sealed C.Compression.BLOCK_LEN (C.Compression.meaning key.now) (nonce label) front.now message.now 16).1 tag.old }
    ensures lawful { SealingIsLawful C.Compression.BLOCK_LEN (C.Compression.meaning key.now) }
{
    let nonce = label.nonce();
    seal::<C>(key, &nonce, front, message, TAG_LEN, ciphertext, tag).unwrap();
}

// Writes the front of an image to the front of a place.
fn put_front(kind: u8, label: Label, header: &[u8], message_len: u8, place: &mut [u8])
    requires { (length header.now ≤ 64) × (16 + length header.now ≤ length place.old) }
    ensures { place.new ≡ at_front (front kind label header.now message_len) place.old }
{
    let h = header.len();
    let (fixed_place, rest) = place.split_at_mut(HEADER_AT);
    fixed_place.copy_from_slice(&fixed(kind, label, h as u8, message_len));
    rest[..h].copy_from_slice(header);
}

// Writes the image to the front of a place where nothing objects, and answers its length.
fn put_image<C: Compression>(
    key: &[u8],
    label: Label,
    header: &[u8],
    message: &[u8],
    place: &mut [u8],
) -> usize
    requires { Buildable C.Compression.SHORTEST_KEY C.Compression.LONGEST_KEY key.now header.now message.now place.old }
    ensures length { result ≡ 32 + length header.now + length message.now }
    ensures place { place.new ≡ at_front (image C.Compression.KIND C.Compression.BLOCK_LEN (C.Compression.meaning key.now) label header.now message.now) place.old }
{
    let n = HEADER_AT + header.len();
    let w = message.len();
    put_front(C::KIND, label, header, w as u8, place);
    let (front, rest) = place.split_at_mut(n);
    let (ciphertext, tag) = rest.split_at_mut(w);
    seal_behind::<C>(key, label, front, message, ciphertext, tag);
    n + w + TAG_LEN
}

// An image that was built is read again: a proof and no code.
fn built_is_read<C: Compression>(key: &[u8], label: Label, header: &[u8], message: &[u8])
    ensures { BuiltImagesAreRead C.Compression.KIND C.Compression.BLOCK_LEN C.Compression.meaning key.now label header.now message.now }
{}

// Builds the image of a label, a header and a message: writes it to the front of its place and answers its length.
pub fn build_image<C: Compression>(
    key: &[u8],
    label: Label,
    header: &[u8],
    message: &[u8],
    place: &mut [u8],
) -> Result<usize, Refusal>
    ensures answer { result ≡ answered (build_verdict C.Compression.SHORTEST_KEY C.Compression.LONGEST_KEY key.now label header.now message.now place.old) (32 + length header.now + length message.now) }
    ensures place { place.new ≡ left result place.old (at_front (image C.Compression.KIND C.Compression.BLOCK_LEN (C.Compression.meaning key.now) label header.now message.now) place.old) }
    ensures read { BuiltImagesAreRead C.Compression.KIND C.Compression.BLOCK_LEN C.Compression.meaning key.now label header.now message.now }
{
    built_is_read::<C>(key, label, header, message);
    build_tested::<C>(key, label, header, message, place)?;
    Ok(put_image::<C>(key, label, header, message, place))
}
