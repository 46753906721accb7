// A call file played on a store in the room at hand, with everything that it prints: the paper's section Call file.
#![tactic(auto)]

mod lines;
mod walk;

ghost use Rattle.std.specs.Prelude.{◌≡◌, ◌+◌, ◌*◌, ◌≤◌, length, take};
ghost use Rattle.replies.specs.Outcome.{answered};
ghost use Rattle.shapes.specs.Buffers.{buffers};
ghost use Rattle.store.specs.Calls.{store};
ghost use Rattle.callfile.specs.Format.{words, entry_at_of, keys_at, values_at};
ghost use Rattle.arena.specs.Calls.{append_in_of};
ghost use Rattle.printing.specs.Text.{laid, laid_at};
ghost use Rattle.replay.specs.Step.{printed, report_of, effect_of, effect};
ghost use Rattle.replay.specs.Transcript.{text_of, at_hand, transcript, play_of, play_in_of, played};

use arena::{append_in, open_in, truncate_in};
use callfile::{Entry, read_words};
use lines::line_text;
use printing::bad_text;
use replies::Refusal;
use store::Record;
use walk::walk_file;

// A line of output.
#[derive(Clone, Copy)]
pub(crate) enum Line {
    // `ok`, or `no` and the reply's number.
    Answer { reply: Result<(), Refusal> },
    // The record's sequence number, these bytes, and the record's lengths.
    Counts { bytes: u64 },
    // `bad at` this place.
    Stop { at: usize },
    // None: the file has ended.
    Nothing,
}

// How far a file is played: its place, the bytes printed so far, and the record of the last store.
#[derive(Clone, Copy)]
pub struct Played {
    pub place: usize,
    pub count: usize,
    pub after: Record,
}

// Plays a call file in the room that the paper gives the program, and lays all that it prints into `out`.
pub fn play(file: &[u8], out: &mut [u8; 4_194_304]) -> Played
    ensures text { record { count = result.count; out = out.new } ≡ laid (transcript file.now) out.old }
    ensures last { (result.place ≡ (play_of file.now at_hand).last.place) × (result.after ≡ (play_of file.now at_hand).last.cache.rec) }
{
    let mut cells = [0u8; 32_768];
    let mut scales = [0u32; 2_048];
    play_in(file, &mut cells, &mut scales, out)
}

// Plays a call file in lent room, and lays all that it prints into `out`.
pub fn play_in(
    file: &[u8],
    cells: &mut [u8],
    scales: &mut [u32],
    out: &mut [u8; 4_194_304],
) -> Played
    ensures { played result cells.new scales.new out.new
        ≡ play_in_of file.now (buffers cells.old scales.old) out.old }
{
    let over = 16_384 < file.len();
    if over {
        let count = bad_text(16_384, out, 0);
        return Played {
            place: 16_384,
            count,
            after: Record::not_open(),
        };
    }
    walk_file(file, cells, scales, out)
}

// Does what the entry at a place says, and answers its line.
pub(crate) fn tell(
    file: &[u8],
    at: usize,
    entry: Entry,
    record: &mut Record,
    cells: &mut [u8],
    scales: &mut [u32],
) -> Line
    requires { «entry» ≡ entry_at_of file.now at }
    ensures { effect result «record».new cells.new scales.new
        ≡ effect_of file.now at «entry» (store «record».old (buffers cells.old scales.old)) }
{
    match entry {
        Entry::Open { shape } => Line::Answer {
            reply: open_in(record, cells, scales, shape),
        },
        Entry::Append { layer, n } => Line::Answer {
            reply: append_from(file, at, n, record, cells, scales, layer),
        },
        Entry::Truncate { layer, t } => Line::Answer {
            reply: truncate_in(record, cells, scales, layer, t),
        },
        Entry::Advance { count } => Line::Answer {
            reply: record.advance_seq_len(count),
        },
        Entry::Report => report(record),
        Entry::End => Line::Nothing,
        Entry::Bad => Line::Stop { at },
    }
}

// The keys and values of an append at a place, appended to the store at hand.
fn append_from(
    file: &[u8],
    at: usize,
    n: u32,
    record: &mut Record,
    cells: &mut [u8],
    scales: &mut [u32],
    layer: u32,
) -> Result<(), Refusal>
    requires { (at + 7 + 8 * n ≤ length file.now) × (n ≤ 512) }
    ensures { answered result (store «record».new (buffers cells.new scales.new))
        ≡ append_in_of layer (keys_at n file.now at) (values_at n file.now at)
        (store «record».old (buffers cells.old scales.old)) }
{
    let k = n as usize;
    let keys = side_at(file, at + 7, k);
    let values = side_at(file, at + 7 + 4 * k, k);
    append_in(record, cells, scales, layer, &keys[..k], &values[..k])
}

// One side of an append, whose `n` numbers begin at a place.
fn side_at(file: &[u8], at: usize, n: usize) -> [u32; 512]
    requires { (at + 4 * n ≤ length file.now) × (n ≤ 512) }
    ensures value { 512 ≡ length result }
    ensures result_value { take n result ≡ words n file.now at }
{
    let mut side = [0; 512];
    read_words(file, at, &mut side[..n]);
    side
}

// Lays a report of a store, or why there is none, at an offset, and answers the offset after it.
pub fn report_line(record: &Record, out: &mut [u8], at: usize) -> usize
    ensures { record { count = result; out = out.new } ≡ laid_at at (text_of (report_of «record».now)) out.old }
{
    line_text(report(record), record, out, at)
}

// A report of a store, or why there is none.
fn report(record: &Record) -> Line
    ensures { printed result «record».now ≡ report_of «record».now }
{
    match record.memory_bytes() {
        Ok(bytes) => Line::Counts { bytes },
        Err(refusal) => Line::Answer {
            reply: Err(refusal),
        },
    }
}
