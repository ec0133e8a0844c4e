// The calls: sealing a message, and opening what was sealed.
ghost use Rattle.std.specs.Prelude.{◌≡◌, ℕ, ◌≤◌, List, length, is_some, Ok, Result};
ghost use Rattle.refusal.specs.declared.Refusal.{Refusal};
ghost use Rattle.refusal.specs.Verdict.{judged, answered, left, at_front};
ghost use Rattle.sealing.specs.Strings.{zeros};
ghost use Rattle.sealing.specs.Omd.{sealed, deciphered, opened};
ghost use Rattle.sealing.specs.Calls.{objections, seal_verdict, open_verdict, opened_place};
ghost use Rattle.sealing.specs.Laws.{SealingIsLawful, OpensExactly};

use crate::bytes::same;
use crate::key::Key;
use crate::omd::Way;
use compression::{Compression, key_tested};
use refusal::Refusal;

// the longest associated data, and the longest message
const LONGEST_TEXT: usize = 65_535;

// The tests that sealing and opening share, in their order. The text needs a place as long as itself, of which there are
// `room` bytes, and the tag one of `tag_len` bytes, of which there are `tag_room`.
fn tested<C: Compression>(
    key: &[u8],
    nonce: &[u8],
    data: &[u8],
    text: &[u8],
    tag_len: usize,
    room: usize,
    tag_room: usize,
) -> Result<(), Refusal>
    ensures { result ≡ judged (objections C.Compression.BLOCK_LEN C.Compression.SHORTEST_KEY C.Compression.LONGEST_KEY key.now nonce.now «data».now text.now tag_len room tag_room) }
{
    key_tested::<C>(key)?;
    let b = C::BLOCK_LEN;
    if room < text.len() || tag_room < tag_len {
        return Err(Refusal::PlaceLength);
    }
    if nonce.is_empty() || b - 1 < nonce.len() {
        return Err(Refusal::NonceLength);
    }
    if tag_len < 4 || b < tag_len {
        return Err(Refusal::TagLength);
    }
    if data.is_empty() || LONGEST_TEXT < data.len() || LONGEST_TEXT < text.len() {
        return Err(Refusal::TextLength);
    }
    Ok(())
}

// Seals a message: writes its ciphertext and a tag of `tag_len` bytes to the fronts of their places, and answers its length.
pub fn seal<C: Compression>(
    key: &[u8],
    nonce: &[u8],
    data: &[u8],
    message: &[u8],
    tag_len: usize,
    ciphertext: &mut [u8],
    tag: &mut [u8],
) -> Result<usize, Refusal>
    ensures answer { result ≡ answered (seal_verdict C.Compression.BLOCK_LEN C.Compression.SHORTEST_KEY C.Compression.LONGEST_KEY key.now nonce.now «data».now message.now tag_len ciphertext.old tag.old) (length message.now) }
    ensures ciphertext { ciphertext.new ≡ left result ciphertext.old (at_front (sealed C.Compression.BLOCK_LEN (C.Compression.meaning key.now) nonce.now «data».now message.now tag_len).0 ciphertext.old) }
    ensures tag { tag.new ≡ left result tag.old (at_front (sealed C.Compression.BLOCK_LEN (C.Compression.meaning key.now) nonce.now «data».now message.now tag_len).1 tag.old) }
    ensures lawful { SealingIsLawful C.Compression.BLOCK_LEN (C.Compression.meaning key.now) }
{
    lawful::<C>(key);
    tested::<C>(
        key,
        nonce,
        data,
        message,
        tag_len,
        ciphertext.len(),
        tag.len(),
    )?;
    Key::<C>::new(key).crossed_and_tagged(
        Way::Sealing,
        nonce,
        data,
        message,
        &mut ciphertext[..message.len()],
        &mut tag[..tag_len],
    );
    Ok(message.len())
}

// What OMD promises of every compression: a proof and no code.
fn lawful<C: Compression>(key: &[u8])
    ensures { SealingIsLawful C.Compression.BLOCK_LEN (C.Compression.meaning key.now) }
{}

// Recovers the message where nothing objects, and says whether the tag is the right one.
fn recover<C: Compression>(
    key: &[u8],
    nonce: &[u8],
    data: &[u8],
    ciphertext: &[u8],
    tag: &[u8],
    message: &mut [u8],
) -> bool
    requires { judged (objections C.Compression.BLOCK_LEN C.Compression.SHORTEST_KEY C.Compression.LONGEST_KEY key.now nonce.now «data».now ciphertext.now (length tag.now) (length message.old) (length tag.now)) ≡ Ok tt }
    ensures right { result ≡ is_some (opened C.Compression.BLOCK_LEN (C.Compression.meaning key.now) nonce.now «data».now ciphertext.now tag.now) }
    ensures message { message.new ≡ at_front (deciphered C.Compression.BLOCK_LEN (C.Compression.meaning key.now) nonce.now (length tag.now) ciphertext.now) message.old }
    ensures size { length (deciphered C.Compression.BLOCK_LEN (C.Compression.meaning key.now) nonce.now (length tag.now) ciphertext.now) ≡ length ciphertext.now }
    ensures rest { at_front (zeros (length ciphertext.now)) message.new ≡ at_front (zeros (length ciphertext.now)) message.old }
{
    let t = tag.len();
    let mut expected = [0u8; 64];
    Key::<C>::new(key).crossed_and_tagged(
        Way::Opening,
        nonce,
        data,
        ciphertext,
        &mut message[..ciphertext.len()],
        &mut expected[..t],
    );
    same(&expected[..t], tag)
}

// Zeros at the front of a place.
fn clear(place: &mut [u8], n: usize)
    requires { n ≤ length place.old }
    ensures { place.new ≡ at_front (zeros n) place.old }
{
    place[..n].fill(0);
}

// Opening answers a message exactly when sealing it gives what was presented: a proof and no code.
fn exact<C: Compression>(key: &[u8], nonce: &[u8], data: &[u8], ciphertext: &[u8], tag: &[u8])
    ensures { (place after : List ℕ) (r : Result ℕ Refusal) → r ≡ answered (open_verdict C.Compression.BLOCK_LEN C.Compression.SHORTEST_KEY C.Compression.LONGEST_KEY key.now nonce.now «data».now ciphertext.now tag.now place (opened C.Compression.BLOCK_LEN (C.Compression.meaning key.now) nonce.now «data».now ciphertext.now tag.now)) (length ciphertext.now) → after ≡ opened_place r (deciphered C.Compression.BLOCK_LEN (C.Compression.meaning key.now) nonce.now (length tag.now) ciphertext.now) place → OpensExactly C.Compression.BLOCK_LEN C.Compression.SHORTEST_KEY C.Compression.LONGEST_KEY C.Compression.meaning key.now nonce.now «data».now ciphertext.now tag.now place r after }
{
    lawful::<C>(key);
}

// Opens, as the definitions say.
fn open_named<C: Compression>(
    key: &[u8],
    nonce: &[u8],
    data: &[u8],
    ciphertext: &[u8],
    tag: &[u8],
    message: &mut [u8],
) -> Result<usize, Refusal>
    ensures answer { result ≡ answered (open_verdict C.Compression.BLOCK_LEN C.Compression.SHORTEST_KEY C.Compression.LONGEST_KEY key.now nonce.now «data».now ciphertext.now tag.now message.old (opened C.Compression.BLOCK_LEN (C.Compression.meaning key.now) nonce.now «data».now ciphertext.now tag.now)) (length ciphertext.now) }
    ensures message { message.new ≡ opened_place result (deciphered C.Compression.BLOCK_LEN (C.Compression.meaning key.now) nonce.now (length tag.now) ciphertext.now) message.old }
{
    let n = ciphertext.len();
    tested::<C>(
        key,
        nonce,
        data,
        ciphertext,
        tag.len(),
        message.len(),
        tag.len(),
    )?;
    if !recover::<C>(key, nonce, data, ciphertext, tag, message) {
        clear(message, n);
        return Err(Refusal::TagMismatch);
    }
    Ok(n)
}

// Opens what was sealed: writes the message to the front of its place and answers its length. Where the tag is not the right
// one, the front of the place is zeroed, as many bytes as the message would have.
pub fn open<C: Compression>(
    key: &[u8],
    nonce: &[u8],
    data: &[u8],
    ciphertext: &[u8],
    tag: &[u8],
    message: &mut [u8],
) -> Result<usize, Refusal>
    ensures answer { result ≡ answered (open_verdict C.Compression.BLOCK_LEN C.Compression.SHORTEST_KEY C.Compression.LONGEST_KEY key.now nonce.now «data».now ciphertext.now tag.now message.old (opened C.Compression.BLOCK_LEN (C.Compression.meaning key.now) nonce.now «data».now ciphertext.now tag.now)) (length ciphertext.now) }
    ensures message { message.new ≡ opened_place result (deciphered C.Compression.BLOCK_LEN (C.Compression.meaning key.now) nonce.now (length tag.now) ciphertext.now) message.old }
    ensures exactly { OpensExactly C.Compression.BLOCK_LEN C.Compression.SHORTEST_KEY C.Compression.LONGEST_KEY C.Compression.meaning key.now nonce.now «data».now ciphertext.now tag.now message.old result message.new }
{
    exact::<C>(key, nonce, data, ciphertext, tag);
    open_named::<C>(key, nonce, data, ciphertext, tag, message)
}
