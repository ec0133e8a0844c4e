// What a line asks.
ghost use Rattle.std.specs.Prelude.{◌≡◌};
ghost use Rattle.vectors.specs.declared.request.Unread.TheVariants.{Memory};

use crate::hex::decode;
use std::alloc::{AllocError, Global};
use std::str;
use std::str::Split;

#[derive(Debug, Drop)]
pub(crate) enum Request {
    Sha256(Vec<u8>),
    Blake2b(Vec<u8>),
    Compress(Compress),
    Double(Vec<u8>),
    Seal(Seal),
    Open(Open),
    Look(Look),
    Image(Image),
}

#[derive(Debug, Drop)]
pub(crate) struct Compress {
    pub(crate) kind: u32,
    pub(crate) key: Vec<u8>,
    pub(crate) chaining: Vec<u8>,
    pub(crate) message: Vec<u8>,
}

#[derive(Debug, Drop)]
pub(crate) struct Seal {
    pub(crate) kind: u32,
    pub(crate) key: Vec<u8>,
    pub(crate) nonce: Vec<u8>,
    pub(crate) data: Vec<u8>,
    pub(crate) message: Vec<u8>,
    pub(crate) tag_len: u32,
}

#[derive(Debug, Drop)]
pub(crate) struct Open {
    pub(crate) kind: u32,
    pub(crate) key: Vec<u8>,
    pub(crate) nonce: Vec<u8>,
    pub(crate) data: Vec<u8>,
    pub(crate) ciphertext: Vec<u8>,
    pub(crate) tag: Vec<u8>,
    pub(crate) place: Vec<u8>,
}

#[derive(Debug, Drop)]
pub(crate) struct Look {
    pub(crate) kind: u32,
    pub(crate) image: Vec<u8>,
}

#[derive(Debug, Drop)]
pub(crate) struct Image {
    pub(crate) kind: u32,
    pub(crate) key: Vec<u8>,
    pub(crate) image: Vec<u8>,
    pub(crate) place: Vec<u8>,
}

// Why a line was not read.
#[derive(Debug, Drop)]
pub(crate) enum Unread {
    NoRequest,
    Memory(AllocError),
}

impl From<AllocError> for Unread {
    ghost from_gives = { λ e r. r ≡ Memory e };

    fn from(e: AllocError) -> Unread {
        Unread::Memory(e)
    }
}

// What is left of a line's fields, which single spaces separate.
#[derive(Drop)]
struct Fields<'a> {
    heap: Global,
    left: Split<'a, char>,
}

impl<'a> Fields<'a> {
    fn next(&mut self) -> Result<&'a str, Unread> {
        self.left.next().ok_or(Unread::NoRequest)
    }

    fn number(&mut self) -> Result<u32, Unread> {
        number(self.next()?).ok_or(Unread::NoRequest)
    }

    fn string(&mut self) -> Result<Vec<u8>, Unread> {
        decode(self.heap, self.next()?)
    }

    // Refuses a line with more or fewer fields left. Each request asks it before it reads one, so that such a line needs no
    // memory for their bytes.
    fn exactly(&self, n: usize) -> Result<(), Unread> {
        if self.left.clone()?.take(n.saturating_add(1)).count() == n {
            Ok(())
        } else {
            Err(Unread::NoRequest)
        }
    }

    // The one field that is left.
    fn last_string(&mut self) -> Result<Vec<u8>, Unread> {
        self.exactly(1)?;
        self.string()
    }
}

// A decimal number. One too large for its type becomes the largest, which is why this is no `parse`.
fn number(field: &str) -> Option<u32> {
    if field.is_empty() {
        return None;
    }
    field.chars().try_fold(0u32, |n, c| {
        Some(n.saturating_mul(10).saturating_add(c.to_digit(10)?))
    })
}

impl Compress {
    fn read(fields: &mut Fields) -> Result<Compress, Unread> {
        fields.exactly(4)?;
        Ok(Compress {
            kind: fields.number()?,
            key: fields.string()?,
            chaining: fields.string()?,
            message: fields.string()?,
        })
    }
}

impl Seal {
    fn read(fields: &mut Fields) -> Result<Seal, Unread> {
        fields.exactly(6)?;
        Ok(Seal {
            kind: fields.number()?,
            key: fields.string()?,
            nonce: fields.string()?,
            data: fields.string()?,
            message: fields.string()?,
            tag_len: fields.number()?,
        })
    }
}

impl Open {
    fn read(fields: &mut Fields) -> Result<Open, Unread> {
        fields.exactly(7)?;
        Ok(Open {
            kind: fields.number()?,
            key: fields.string()?,
            nonce: fields.string()?,
            data: fields.string()?,
            ciphertext: fields.string()?,
            tag: fields.string()?,
            place: fields.string()?,
        })
    }
}

impl Look {
    fn read(fields: &mut Fields) -> Result<Look, Unread> {
        fields.exactly(2)?;
        Ok(Look {
            kind: fields.number()?,
            image: fields.string()?,
        })
    }
}

impl Image {
    fn read(fields: &mut Fields) -> Result<Image, Unread> {
        fields.exactly(4)?;
        Ok(Image {
            kind: fields.number()?,
            key: fields.string()?,
            image: fields.string()?,
            place: fields.string()?,
        })
    }
}

// The request of a line. One that is not text asks nothing.
pub(crate) fn parse(heap: Global, line: &[u8]) -> Result<Request, Unread> {
    let line = str::from_utf8(line).map_err(|_| Unread::NoRequest)?;
    let mut fields = Fields {
        heap,
        left: line.split(' '),
    };
    match fields.next()? {
        "sha256" => Ok(Request::Sha256(fields.last_string()?)),
        "blake2b" => Ok(Request::Blake2b(fields.last_string()?)),
        "compress" => Ok(Request::Compress(Compress::read(&mut fields)?)),
        "double" => Ok(Request::Double(fields.last_string()?)),
        "seal" => Ok(Request::Seal(Seal::read(&mut fields)?)),
        "open" => Ok(Request::Open(Open::read(&mut fields)?)),
        "look" => Ok(Request::Look(Look::read(&mut fields)?)),
        "image" => Ok(Request::Image(Image::read(&mut fields)?)),
        _ => Err(Unread::NoRequest),
    }
}
