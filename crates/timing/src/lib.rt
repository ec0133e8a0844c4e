// The compressions, sealing and opening by C names, for bench/run to time. No part of the product.
#![tactic(auto)]

ghost use Rattle.std.specs.Prelude.{◌≡◌, length};
ghost use Rattle.refusal.specs.Verdict.{code, left, answered, at_front};
ghost use Rattle.compression.specs.Compress.{compress_verdict};
ghost use Rattle.compression.specs.Keyed.{sha256, blake2b};
ghost use Rattle.sealing.specs.Omd.{sealed, deciphered, opened};
ghost use Rattle.sealing.specs.Calls.{seal_verdict, open_verdict, opened_place};

use compression::{Blake2b, Compression, Sha256};

// Kind 1, and the number of its verdict.
#[unsafe(no_mangle)]
pub extern "C" fn timing_sha256(
    key: &[u8],
    chaining: &[u8],
    message: &[u8],
    place: &mut [u8],
) -> u32
    ensures verdict { result ≡ code (compress_verdict 32 16 32 key.now chaining.now message.now place.old) }
    ensures after { place.new ≡ left (compress_verdict 32 16 32 key.now chaining.now message.now place.old) place.old (sha256 key.now chaining.now message.now) }
{
    refusal::code(Sha256::compress(key, chaining, message, place))
}

// Kind 2, and the number of its verdict.
#[unsafe(no_mangle)]
pub extern "C" fn timing_blake2b(
    key: &[u8],
    chaining: &[u8],
    message: &[u8],
    place: &mut [u8],
) -> u32
    ensures verdict { result ≡ code (compress_verdict 64 16 64 key.now chaining.now message.now place.old) }
    ensures after { place.new ≡ left (compress_verdict 64 16 64 key.now chaining.now message.now place.old) place.old (blake2b key.now chaining.now message.now) }
{
    refusal::code(Blake2b::compress(key, chaining, message, place))
}

// Sealing with kind 1, and the number of its refusal, or 0.
#[unsafe(no_mangle)]
pub extern "C" fn timing_seal_sha256(
    key: &[u8],
    nonce: &[u8],
    data: &[u8],
    message: &[u8],
    tag_len: usize,
    ciphertext: &mut [u8],
    tag: &mut [u8],
) -> u32
    ensures answer { result ≡ code (answered (seal_verdict 32 16 32 key.now nonce.now «data».now message.now tag_len ciphertext.old tag.old) (length message.now)) }
    ensures ciphertext { ciphertext.new ≡ left (answered (seal_verdict 32 16 32 key.now nonce.now «data».now message.now tag_len ciphertext.old tag.old) (length message.now)) ciphertext.old (at_front (sealed 32 (sha256 key.now) nonce.now «data».now message.now tag_len).0 ciphertext.old) }
    ensures tag { tag.new ≡ left (answered (seal_verdict 32 16 32 key.now nonce.now «data».now message.now tag_len ciphertext.old tag.old) (length message.now)) tag.old (at_front (sealed 32 (sha256 key.now) nonce.now «data».now message.now tag_len).1 tag.old) }
{
    let answer = sealing::seal::<Sha256>(key, nonce, data, message, tag_len, ciphertext, tag);
    refusal::code(answer)
}

// Sealing with kind 2, and the number of its refusal, or 0.
#[unsafe(no_mangle)]
pub extern "C" fn timing_seal_blake2b(
    key: &[u8],
    nonce: &[u8],
    data: &[u8],
    message: &[u8],
    tag_len: usize,
    ciphertext: &mut [u8],
    tag: &mut [u8],
) -> u32
    ensures answer { result ≡ code (answered (seal_verdict 64 16 64 key.now nonce.now «data».now message.now tag_len ciphertext.old tag.old) (length message.now)) }
    ensures ciphertext { ciphertext.new ≡ left (answered (seal_verdict 64 16 64 key.now nonce.now «data».now message.now tag_len ciphertext.old tag.old) (length message.now)) ciphertext.old (at_front (sealed 64 (blake2b key.now) nonce.now «data».now message.now tag_len).0 ciphertext.old) }
    ensures tag { tag.new ≡ left (answered (seal_verdict 64 16 64 key.now nonce.now «data».now message.now tag_len ciphertext.old tag.old) (length message.now)) tag.old (at_front (sealed 64 (blake2b key.now) nonce.now «data».now message.now tag_len).1 tag.old) }
{
    let answer = sealing::seal::<Blake2b>(key, nonce, data, message, tag_len, ciphertext, tag);
    refusal::code(answer)
}

// Opening with kind 1, and the number of its refusal, or 0.
#[unsafe(no_mangle)]
pub extern "C" fn timing_open_sha256(
    key: &[u8],
    nonce: &[u8],
    data: &[u8],
    ciphertext: &[u8],
    tag: &[u8],
    message: &mut [u8],
) -> u32
    ensures answer { result ≡ code (answered (open_verdict 32 16 32 key.now nonce.now «data».now ciphertext.now tag.now message.old (opened 32 (sha256 key.now) nonce.now «data».now ciphertext.now tag.now)) (length ciphertext.now)) }
    ensures message { message.new ≡ opened_place (answered (open_verdict 32 16 32 key.now nonce.now «data».now ciphertext.now tag.now message.old (opened 32 (sha256 key.now) nonce.now «data».now ciphertext.now tag.now)) (length ciphertext.now)) (deciphered 32 (sha256 key.now) nonce.now (length tag.now) ciphertext.now) message.old }
{
    refusal::code(sealing::open::<Sha256>(key, nonce, data, ciphertext, tag, message))
}

// Opening with kind 2, and the number of its refusal, or 0.
#[unsafe(no_mangle)]
pub extern "C" fn timing_open_blake2b(
    key: &[u8],
    nonce: &[u8],
    data: &[u8],
    ciphertext: &[u8],
    tag: &[u8],
    message: &mut [u8],
) -> u32
    ensures answer { result ≡ code (answered (open_verdict 64 16 64 key.now nonce.now «data».now ciphertext.now tag.now message.old (opened 64 (blake2b key.now) nonce.now «data».now ciphertext.now tag.now)) (length ciphertext.now)) }
    ensures message { message.new ≡ opened_place (answered (open_verdict 64 16 64 key.now nonce.now «data».now ciphertext.now tag.now message.old (opened 64 (blake2b key.now) nonce.now «data».now ciphertext.now tag.now)) (length ciphertext.now)) (deciphered 64 (blake2b key.now) nonce.now (length tag.now) ciphertext.now) message.old }
{
    refusal::code(sealing::open::<Blake2b>(key, nonce, data, ciphertext, tag, message))
}
