// The line that answers a request.
ghost use Rattle.std.specs.Prelude.{◌≡◌};
ghost use Rattle.vectors.specs.Numbers.{in_numbers};

use crate::compress::compressed;
use crate::hex::Hex;
use crate::request::{Compress, Image, Look, Open, Request, Seal, Unread, parse};
use crate::seal::{opened, sealed};
use image::{ImageReader, open_image_by_kind};
use refusal::{Refusal, code};
use std::alloc::{AllocError, Global};

// Tags of more than 64 bytes are refused, so one of 65 stands for all of them.
const MOST_TAG: u32 = 65;

pub(crate) fn answer(heap: Global, line: &[u8]) -> Result<String, AllocError> {
    match parse(heap, line) {
        Ok(Request::Sha256(message)) => {
            format!(in heap; "sha256 {}", Hex(&hashing::sha256(message.as_slice())))
        }
        Ok(Request::Blake2b(message)) => {
            format!(in heap; "blake2b {}", Hex(&hashing::blake2b(message.as_slice())))
        }
        Ok(Request::Compress(request)) => answer_compress(heap, &request),
        Ok(Request::Double(string)) => answer_double(heap, string),
        Ok(Request::Seal(request)) => answer_seal(heap, &request),
        Ok(Request::Open(request)) => answer_open(heap, request),
        Ok(Request::Look(request)) => answer_look(heap, &request),
        Ok(Request::Image(request)) => answer_image(heap, request),
        Err(Unread::NoRequest) => String::from_str(heap, "?"),
        Err(Unread::Memory(e)) => Err(e),
    }
}

// The number of the refusal and no length, or 0 and the length.
fn in_numbers(answer: Result<usize, Refusal>) -> (u32, usize)
    ensures { result ≡ in_numbers answer }
{
    (code(answer), answer.unwrap_or(0))
}

fn answer_compress(heap: Global, request: &Compress) -> Result<String, AllocError> {
    let mut place = [0u8; 64];
    let answer = compressed(
        request.kind,
        request.key.as_slice(),
        request.chaining.as_slice(),
        request.message.as_slice(),
        &mut place,
    );
    match answer {
        // the contract says what stands in the first n bytes, and not that n is a block's length
        Ok(n) => format!(in heap; "compress 0 {}", Hex(&place[..n.min(64)])),
        Err(refusal) => format!(in heap; "compress {refusal} -"),
    }
}

fn answer_double(heap: Global, mut string: Vec<u8>) -> Result<String, AllocError> {
    match sealing::double(string.as_mut_slice()) {
        Ok(()) => format!(in heap; "double {}", Hex(string.as_slice())),
        Err(_) => String::from_str(heap, "?"),
    }
}

fn answer_seal(heap: Global, request: &Seal) -> Result<String, AllocError> {
    let mut ciphertext = vec![in heap; 0u8; request.message.len()]?;
    // `as`, since no `From` takes a `u32` to a `usize`
    let tag_len = request.tag_len.min(MOST_TAG) as usize;
    let mut tag = vec![in heap; 0u8; tag_len]?;
    let answer = sealed(
        request.kind,
        request.key.as_slice(),
        request.nonce.as_slice(),
        request.data.as_slice(),
        request.message.as_slice(),
        tag_len,
        ciphertext.as_mut_slice(),
        tag.as_mut_slice(),
    );
    match answer {
        Ok(_) => {
            format!(in heap;
                "seal 0 {} {}",
                Hex(ciphertext.as_slice()),
                Hex(tag.as_slice())
            )
        }
        Err(refusal) => format!(in heap; "seal {refusal} - -"),
    }
}

// The line of a call that opened into a place.
fn opening_line(
    heap: Global,
    name: &str,
    answer: Result<usize, Refusal>,
    place: &[u8],
) -> Result<String, AllocError> {
    let (number, n) = in_numbers(answer);
    format!(in heap; "{name} {number} {n} {}", Hex(place))
}

fn answer_open(heap: Global, mut request: Open) -> Result<String, AllocError> {
    let answer = opened(
        request.kind,
        request.key.as_slice(),
        request.nonce.as_slice(),
        request.data.as_slice(),
        request.ciphertext.as_slice(),
        request.tag.as_slice(),
        request.place.as_mut_slice(),
    );
    opening_line(heap, "open", answer, request.place.as_slice())
}

// Each part of an image: where it begins, and its bytes.
fn answer_look(heap: Global, request: &Look) -> Result<String, AllocError> {
    match ImageReader::new(request.kind, request.image.as_slice()).look() {
        Ok(parts) => format!(in heap;
            "look 0 {}:{} {}:{} {}:{}",
            parts.header.at,
            Hex(parts.header.bytes),
            parts.ciphertext.at,
            Hex(parts.ciphertext.bytes),
            parts.tag.at,
            Hex(parts.tag.bytes)
        ),
        Err(refusal) => format!(in heap; "look {refusal} - - -"),
    }
}

fn answer_image(heap: Global, mut request: Image) -> Result<String, AllocError> {
    let answer = open_image_by_kind(
        request.kind,
        request.key.as_slice(),
        request.image.as_slice(),
        request.place.as_mut_slice(),
    );
    opening_line(heap, "image", answer, request.place.as_slice())
}
