// OMD, where all lengths are right: the calls test them.
ghost use Rattle.std.specs.Prelude.{◌≡◌, ℕ, List, ◌+◌, ◌*◌, ◌/◌, ◌<◌, ◌≤◌, ◌++◌, length, drop};
ghost use Rattle.compression.specs.Words.{to_be};
ghost use Rattle.sealing.specs.Strings.{◌⊕◌, zeros, padded, last_block, block_count, chained, summed};
ghost use Rattle.sealing.specs.Double.{double, triple};
ghost use Rattle.sealing.specs.Omd.{ntz, plain, L⋆, L, halves, absorbed, HASH, Δ, Δ₀, chaining_at, crossed, other_text, ended, ended_at, Tag};

use crate::bytes::{add, pad, sum};
use crate::key::Key;
use crate::masks::Masks;
use compression::Compression;

// The way through a text: from a message to its ciphertext, or back. The definitions of OMD name it, so it is an enum and no
// type parameter.
#[derive(Clone, Copy)]
pub(crate) enum Way {
    Sealing,
    Opening,
}

impl Way {
    // Which of a block and its other text is the message.
    fn message<'t>(self, input: &'t [u8], output: &'t [u8]) -> &'t [u8]
        ensures { (H : List ℕ) → output.now ≡ H ⊕ input.now → result.now ≡ plain self H input.now }
    {
        match self {
            Way::Sealing => input,
            Way::Opening => output,
        }
    }
}

// A number in a place of zeros, big-endian.
fn put_number(n: u64, place: &mut [u8])
    requires { (8 ≤ length place.old) × (place.old ≡ zeros (length place.old)) }
    ensures { place.new ≡ to_be (length place.old) n }
{
    let at = place.len() - 8;
    place[at..].copy_from_slice(&n.to_be_bytes());
}

// The bytes of a block of associated data.
fn data_block_len<C: Compression>() -> usize
    ensures { result ≡ 2 * C.Compression.BLOCK_LEN }
{
    2 * C::BLOCK_LEN
}

impl<C: Compression> Key<'_, C> {
    // The mask before the first block, from the nonce.
    fn start(&self, nonce: &[u8], mask: &mut [u8])
        requires { (length nonce.now < C.Compression.BLOCK_LEN) × (length mask.old ≡ C.Compression.BLOCK_LEN) }
        ensures { mask.new ≡ Δ₀ C.Compression.BLOCK_LEN (C.Compression.meaning self.now.bytes.now) nonce.now }
    {
        let b = C::BLOCK_LEN;
        let zeros = [0u8; 64];
        let mut padded = [0u8; 64];
        pad(nonce, &mut padded[..b]);
        self.compress(&padded[..b], &zeros[..b], mask);
    }

    // The chaining value at the first block, from its mask.
    fn first_chaining(&self, mask: &[u8], tag_len: usize, chaining: &mut [u8])
        requires { (tag_len ≤ C.Compression.BLOCK_LEN) × (length mask.now ≡ C.Compression.BLOCK_LEN) × (length chaining.old ≡ C.Compression.BLOCK_LEN) }
        ensures { chaining.new ≡ C.Compression.meaning self.now.bytes.now mask.now (to_be C.Compression.BLOCK_LEN (8 * tag_len)) }
    {
        let b = C::BLOCK_LEN;
        let mut bits = [0u8; 64];
        // `as`, since no `From` takes a `usize` to a `u64`
        put_number(8 * tag_len as u64, &mut bits[..b]);
        self.compress(mask, &bits[..b], chaining);
    }

    // Adds what a block of the associated data gives under its mask.
    fn absorb(&self, mask: &[u8], block: &[u8], to: &mut [u8])
        requires { (length block.now ≡ 2 * C.Compression.BLOCK_LEN) × (length mask.now ≡ C.Compression.BLOCK_LEN) × (length to.old ≡ C.Compression.BLOCK_LEN) }
        ensures { to.new ≡ to.old ⊕ halves C.Compression.BLOCK_LEN (C.Compression.meaning self.now.bytes.now) block.now mask.now }
    {
        let b = C::BLOCK_LEN;
        let (first, second) = block.split_at(b);
        let mut value = [0u8; 64];
        value[..b].copy_from_slice(first);
        self.fold(mask, second, &mut value[..b]);
        add(to, &value[..b]);
    }

    // The other text of a text, and the tag of both.
    pub(crate) fn crossed_and_tagged(
        self,
        way: Way,
        nonce: &[u8],
        data: &[u8],
        input: &[u8],
        output: &mut [u8],
        tag: &mut [u8],
    )
        requires lengths { (length nonce.now < C.Compression.BLOCK_LEN) × (1 ≤ length «data».now) × (length «data».now ≤ 65535) × (length input.now ≤ 65535) }
        requires places { (length output.old ≡ length input.now) × (length tag.old ≤ C.Compression.BLOCK_LEN) }
        ensures text { output.new ≡ other_text C.Compression.BLOCK_LEN (C.Compression.meaning self.entry.bytes.now) way nonce.now (length tag.old) input.now }
        ensures tag { tag.new ≡ Tag C.Compression.BLOCK_LEN (C.Compression.meaning self.entry.bytes.now) way nonce.now «data».now (length tag.old) input.now }
    {
        let b = C::BLOCK_LEN;
        let t = tag.len();
        let blocks = input.len().saturating_sub(1) / b + 1;
        let masks = Masks::work_out(self, blocks.max(data.len() / data_block_len::<C>()));
        let mut end = [0u8; 64];
        masks.cross_text(way, nonce, t, input, output, &mut end[..b]);
        let mut sum = [0u8; 64];
        masks.hash(data, &mut sum[..b]);
        add(&mut end[..b], &sum[..b]);
        tag.copy_from_slice(&end[..t]);
    }
}

// The mask and the chaining value stay two slices: as fields of one record the check does not follow them when one is read and
// one written, and to name each borrow first takes more lines than two parameters.
impl<C: Compression> Masks<'_, C> {
    // One block of a text that is not the last, whose number is `number`: writes the other text's block, adds the next mask,
    // and moves the chaining value on.
    fn cross(
        &self,
        way: Way,
        number: usize,
        input: &[u8],
        output: &mut [u8],
        mask: &mut [u8],
        chaining: &mut [u8],
    )
        requires number { (1 ≤ number) × (number < self.now.most) }
        requires blocks { (length input.now ≡ C.Compression.BLOCK_LEN) × (length output.old ≡ C.Compression.BLOCK_LEN) × (length mask.old ≡ C.Compression.BLOCK_LEN) × (length chaining.old ≡ C.Compression.BLOCK_LEN) }
        ensures text { output.new ≡ chaining.old ⊕ input.now }
        ensures mask { mask.new ≡ mask.old ⊕ L C.Compression.BLOCK_LEN (C.Compression.meaning self.now.key.bytes.now) (ntz (number + 1)) }
        ensures chaining { chaining.new ≡ C.Compression.meaning self.now.key.bytes.now (chaining.old ⊕ mask.new) (plain way chaining.old input.now) }
    {
        sum(output, chaining, input);
        self.add_row(number + 1, mask);
        self.key.fold(mask, way.message(input, output), chaining);
    }

    // All blocks of a text but the last: writes the other text's blocks, and leaves the mask and the chaining value of the
    // last. By index, since a proof knows no byte that was written through `chunks_exact_mut`.
    fn cross_all(
        &self,
        way: Way,
        nonce: &[u8],
        tag_len: usize,
        input: &[u8],
        output: &mut [u8],
        mask: &mut [u8],
        chaining: &mut [u8],
    )
        requires masks { block_count C.Compression.BLOCK_LEN input.now ≤ self.now.most }
        requires lengths { (length nonce.now < C.Compression.BLOCK_LEN) × (tag_len ≤ C.Compression.BLOCK_LEN) }
        requires places { (length output.old ≡ length input.now) × (length mask.old ≡ C.Compression.BLOCK_LEN) × (length chaining.old ≡ C.Compression.BLOCK_LEN) }
        ensures text { output.new ≡ chained (crossed C.Compression.BLOCK_LEN (C.Compression.meaning self.now.key.bytes.now) way nonce.now tag_len input.now) (last_block C.Compression.BLOCK_LEN input.now) ++ drop (last_block C.Compression.BLOCK_LEN input.now * C.Compression.BLOCK_LEN) output.old }
        ensures mask { mask.new ≡ Δ C.Compression.BLOCK_LEN (C.Compression.meaning self.now.key.bytes.now) (Δ₀ C.Compression.BLOCK_LEN (C.Compression.meaning self.now.key.bytes.now) nonce.now) (last_block C.Compression.BLOCK_LEN input.now + 1) }
        ensures chaining { chaining.new ≡ chaining_at C.Compression.BLOCK_LEN (C.Compression.meaning self.now.key.bytes.now) way nonce.now tag_len input.now (last_block C.Compression.BLOCK_LEN input.now) }
    {
        self.key.start(nonce, mask);
        self.add_row(1, mask);
        self.key.first_chaining(mask, tag_len, chaining);
        let b = C::BLOCK_LEN;
        for i in 0..input.len().saturating_sub(1) / b {
            let at = i * b;
            self.cross(
                way,
                i + 1,
                &input[at..at + b],
                &mut output[at..at + b],
                mask,
                chaining,
            );
        }
    }

    // The end of a text whose last message block is shorter than a block, and not empty.
    fn end_short(&self, message: &[u8], mask: &mut [u8], chaining: &mut [u8])
        requires { (length message.now < C.Compression.BLOCK_LEN) × (length mask.old ≡ C.Compression.BLOCK_LEN) × (length chaining.old ≡ C.Compression.BLOCK_LEN) }
        ensures { chaining.new ≡ C.Compression.meaning self.now.key.bytes.now (chaining.old ⊕ (mask.old ⊕ triple (L⋆ C.Compression.BLOCK_LEN (C.Compression.meaning self.now.key.bytes.now)))) (padded C.Compression.BLOCK_LEN message.now) }
    {
        let b = C::BLOCK_LEN;
        let mut thrice = [0u8; 64];
        sum(&mut thrice[..b], &self.twice[..b], &self.once[..b]);
        add(mask, &thrice[..b]);
        let mut block = [0u8; 64];
        pad(message, &mut block[..b]);
        self.key.fold(mask, &block[..b], chaining);
    }

    // The end of a text whose last message block is a whole one.
    fn end_whole(&self, message: &[u8], mask: &mut [u8], chaining: &mut [u8])
        requires { (length message.now ≡ C.Compression.BLOCK_LEN) × (length mask.old ≡ C.Compression.BLOCK_LEN) × (length chaining.old ≡ C.Compression.BLOCK_LEN) }
        ensures { chaining.new ≡ C.Compression.meaning self.now.key.bytes.now (chaining.old ⊕ (mask.old ⊕ double (L⋆ C.Compression.BLOCK_LEN (C.Compression.meaning self.now.key.bytes.now)))) message.now }
    {
        let b = C::BLOCK_LEN;
        add(mask, &self.twice[..b]);
        self.key.fold(mask, message, chaining);
    }

    // What the tag has of the message, from the last message block; it is left in `chaining`.
    fn end(&self, message: &[u8], mask: &mut [u8], chaining: &mut [u8])
        requires { (length message.now ≤ C.Compression.BLOCK_LEN) × (length mask.old ≡ C.Compression.BLOCK_LEN) × (length chaining.old ≡ C.Compression.BLOCK_LEN) }
        ensures { chaining.new ≡ ended C.Compression.BLOCK_LEN (C.Compression.meaning self.now.key.bytes.now) mask.old chaining.old message.now }
    {
        if message.len() == C::BLOCK_LEN {
            self.end_whole(message, mask, chaining);
        } else if !message.is_empty() {
            self.end_short(message, mask, chaining);
        }
    }

    // The last block of a text: writes the other text's block, and leaves the end of the chain in `chaining`.
    fn cross_last(
        &self,
        way: Way,
        input: &[u8],
        output: &mut [u8],
        mask: &mut [u8],
        chaining: &mut [u8],
    )
        requires { (length input.now ≤ C.Compression.BLOCK_LEN) × (length output.old ≡ length input.now) × (length mask.old ≡ C.Compression.BLOCK_LEN) × (length chaining.old ≡ C.Compression.BLOCK_LEN) }
        ensures text { output.new ≡ chaining.old ⊕ input.now }
        ensures end { chaining.new ≡ ended C.Compression.BLOCK_LEN (C.Compression.meaning self.now.key.bytes.now) mask.old chaining.old (plain way chaining.old input.now) }
    {
        let n = input.len();
        sum(output, &chaining[..n], input);
        self.end(way.message(input, output), mask, chaining);
    }

    // A whole text: writes the other text, and leaves the end of the chain in `chaining`.
    fn cross_text(
        &self,
        way: Way,
        nonce: &[u8],
        tag_len: usize,
        input: &[u8],
        output: &mut [u8],
        chaining: &mut [u8],
    )
        requires masks { block_count C.Compression.BLOCK_LEN input.now ≤ self.now.most }
        requires lengths { (length nonce.now < C.Compression.BLOCK_LEN) × (tag_len ≤ C.Compression.BLOCK_LEN) }
        requires places { (length output.old ≡ length input.now) × (length chaining.old ≡ C.Compression.BLOCK_LEN) }
        ensures text { output.new ≡ other_text C.Compression.BLOCK_LEN (C.Compression.meaning self.now.key.bytes.now) way nonce.now tag_len input.now }
        ensures end { chaining.new ≡ ended_at C.Compression.BLOCK_LEN (C.Compression.meaning self.now.key.bytes.now) way nonce.now tag_len input.now (last_block C.Compression.BLOCK_LEN input.now) }
    {
        let b = C::BLOCK_LEN;
        let mut mask = [0u8; 64];
        self.cross_all(way, nonce, tag_len, input, output, &mut mask[..b], chaining);
        let at = input.len().saturating_sub(1) / b * b;
        self.cross_last(
            way,
            &input[at..],
            &mut output[at..],
            &mut mask[..b],
            chaining,
        );
    }

    // All whole blocks of the associated data, from zeros: leaves their sum, and the mask of the last.
    fn absorb_whole(&self, data: &[u8], mask: &mut [u8], to: &mut [u8])
        requires masks { length «data».now / (2 * C.Compression.BLOCK_LEN) ≤ self.now.most }
        requires places { (mask.old ≡ zeros C.Compression.BLOCK_LEN) × (to.old ≡ zeros C.Compression.BLOCK_LEN) }
        ensures mask { mask.new ≡ Δ C.Compression.BLOCK_LEN (C.Compression.meaning self.now.key.bytes.now) (zeros C.Compression.BLOCK_LEN) (length «data».now / (2 * C.Compression.BLOCK_LEN)) }
        ensures sum { to.new ≡ summed C.Compression.BLOCK_LEN (absorbed C.Compression.BLOCK_LEN (C.Compression.meaning self.now.key.bytes.now) «data».now) (length «data».now / (2 * C.Compression.BLOCK_LEN)) }
    {
        for (i, block) in data.chunks_exact(data_block_len::<C>()).enumerate() {
            self.add_row(i + 1, mask);
            self.key.absorb(mask, block, to);
        }
    }

    // The shorter last block of the associated data, padded.
    fn absorb_short(&self, data: &[u8], mask: &mut [u8], to: &mut [u8])
        requires { (length «data».now < 2 * C.Compression.BLOCK_LEN) × (length mask.old ≡ C.Compression.BLOCK_LEN) × (length to.old ≡ C.Compression.BLOCK_LEN) }
        ensures { to.new ≡ to.old ⊕ halves C.Compression.BLOCK_LEN (C.Compression.meaning self.now.key.bytes.now) (padded (2 * C.Compression.BLOCK_LEN) «data».now) (mask.old ⊕ L⋆ C.Compression.BLOCK_LEN (C.Compression.meaning self.now.key.bytes.now)) }
    {
        let b = C::BLOCK_LEN;
        add(mask, &self.once[..b]);
        let n = data_block_len::<C>();
        let mut block = [0u8; 128];
        pad(data, &mut block[..n]);
        self.key.absorb(mask, &block[..n], to);
    }

    // What the tag has of the associated data, in a place of zeros.
    fn hash(&self, data: &[u8], to: &mut [u8])
        requires masks { length «data».now / (2 * C.Compression.BLOCK_LEN) ≤ self.now.most }
        requires places { (1 ≤ length «data».now) × (to.old ≡ zeros C.Compression.BLOCK_LEN) }
        ensures { to.new ≡ HASH C.Compression.BLOCK_LEN (C.Compression.meaning self.now.key.bytes.now) «data».now }
    {
        let b = C::BLOCK_LEN;
        let mut mask = [0u8; 64];
        self.absorb_whole(data, &mut mask[..b], to);
        let rest = data.chunks_exact(data_block_len::<C>()).remainder();
        if !rest.is_empty() {
            self.absorb_short(rest, &mut mask[..b], to);
        }
    }
}
