// A call file: what stands at each of its places, and a reader that walks it. The paper's section Call file.
#![tactic(auto)]

ghost use Rattle.std.specs.Prelude.{◌≡◌, ◌+◌, ◌*◌};
ghost use Rattle.callfile.specs.Format.{kind_at, open_at, append_at_of, truncate_at_of, advance_at_of, entry_at_of, size_of, words_read};

use shapes::Shape;

pub mod reader;

// What stands at a place: a record of one of the five kinds with its fields, the end of the file, or no record.
#[derive(Clone, Copy)]
pub enum Entry {
    Open { shape: Shape },
    // `n` keys and as many values follow the fields.
    Append { layer: u32, n: u32 },
    Truncate { layer: u32, t: u32 },
    Advance { count: u32 },
    Report,
    End,
    Bad,
}

impl Entry {
    // The bytes of a record; none where no record stands.
    pub fn size(self) -> usize
        ensures { result ≡ size_of self }
    {
        match self {
            Entry::Open { .. } => 12,
            Entry::Append { n, .. } => 7 + 8 * n as usize,
            Entry::Truncate { .. } | Entry::Advance { .. } => 7,
            Entry::Report => 3,
            Entry::End | Entry::Bad => 0,
        }
    }
}

// What stands at a place.
#[tactic(auto, using(crate::proofs::FormatLaws::rest_from, crate::proofs::FormatLaws::entry_from), unfolding(crate::specs::Format::entry_at_of))]
pub fn entry_at(file: &[u8], at: usize) -> Entry
    ensures { result ≡ entry_at_of file.now at }
{
    match file.get(at..) {
        None => Entry::End,
        Some(rest) => first_entry(rest),
    }
}

// What stands at the start of some bytes.
#[tactic(auto, unfolding(crate::specs::Format::entry_at_of))]
fn first_entry(bytes: &[u8]) -> Entry
    ensures { result ≡ entry_at_of bytes.now 0 }
{
    match bytes {
        [] => Entry::End,
        [0x4B, 0x56, kind, ..] => record(*kind, bytes),
        _ => Entry::Bad,
    }
}

// A record of a kind, whose fields follow the mark and the kind.
#[tactic(auto, unfolding(crate::specs::Format::kind_at))]
fn record(kind: u8, bytes: &[u8]) -> Entry
    ensures { result ≡ kind_at kind bytes.now 0 }
{
    match kind {
        1 => open(bytes),
        2 => append(bytes),
        3 => truncate(bytes),
        4 => advance(bytes),
        5 => Entry::Report,
        _ => Entry::Bad,
    }
}

#[tactic(auto, using(crate::proofs::FormatLaws::number_byte, crate::proofs::FormatLaws::number_pair), unfolding(crate::specs::Format::open_at))]
fn open(bytes: &[u8]) -> Entry
    ensures { result ≡ open_at bytes.now 0 }
{
    match bytes {
        [_, _, _, format, l0, l1, h0, h1, s0, s1, c0, c1, ..] => Entry::Open {
            shape: Shape {
                format: u32::from(*format),
                layers: u16_of(*l0, *l1),
                heads: u16_of(*h0, *h1),
                head_size: u16_of(*s0, *s1),
                capacity: u16_of(*c0, *c1),
            },
        },
        _ => Entry::Bad,
    }
}

#[tactic(auto, using(crate::proofs::FormatLaws::number_pair), unfolding(crate::specs::Format::append_at_of))]
fn append(bytes: &[u8]) -> Entry
    ensures { result ≡ append_at_of bytes.now 0 }
{
    match bytes {
        [_, _, _, l0, l1, n0, n1, numbers @ ..] => {
            let n = u16_of(*n0, *n1);
            if 512 < n || numbers.len() < 8 * n as usize {
                return Entry::Bad;
            }
            Entry::Append {
                layer: u16_of(*l0, *l1),
                n,
            }
        }
        _ => Entry::Bad,
    }
}

#[tactic(auto, using(crate::proofs::FormatLaws::number_pair), unfolding(crate::specs::Format::truncate_at_of))]
fn truncate(bytes: &[u8]) -> Entry
    ensures { result ≡ truncate_at_of bytes.now 0 }
{
    match bytes {
        [_, _, _, l0, l1, t0, t1, ..] => Entry::Truncate {
            layer: u16_of(*l0, *l1),
            t: u16_of(*t0, *t1),
        },
        _ => Entry::Bad,
    }
}

#[tactic(auto, using(crate::proofs::FormatLaws::number_quad), unfolding(crate::specs::Format::advance_at_of))]
fn advance(bytes: &[u8]) -> Entry
    ensures { result ≡ advance_at_of bytes.now 0 }
{
    match bytes {
        [_, _, _, a, b, c, d, ..] => Entry::Advance {
            count: u32::from_le_bytes([*a, *b, *c, *d]),
        },
        _ => Entry::Bad,
    }
}

// A number of two bytes, least significant byte first.
fn u16_of(low: u8, high: u8) -> u32
    ensures { result ≡ low + 256 * high }
{
    u32::from(u16::from_le_bytes([low, high]))
}

// Reads as many numbers as are lent, from a place on; none where the file has too few bytes.
#[tactic(auto, using(crate::proofs::FormatLaws::words_kept))]
pub fn read_words(file: &[u8], at: usize, out: &mut [u32])
    ensures { out.new ≡ words_read file.now at out.old }
{
    let Some(rest) = file.get(at..) else {
        return;
    };
    let (words, _) = rest.as_chunks::<4>();
    if words.len() < out.len() {
        return;
    }
    for (i, word) in out.iter_mut().enumerate() {
        *word = u32::from_le_bytes(words[i]);
    }
}
