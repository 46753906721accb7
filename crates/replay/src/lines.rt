// The line of each record as bytes.
ghost use Rattle.std.specs.Prelude.{◌≡◌};
ghost use Rattle.printing.specs.Text.{laid_at};
ghost use Rattle.replay.specs.Step.{printed, reported};
ghost use Rattle.replay.specs.Transcript.{text_of};

use super::Line;
use printing::{answer_text, bad_text, report_text};
use replies::number;
use store::Record;

// Lays a line at an offset and answers the offset after it; at the end of a file there is none.
pub(crate) fn line_text(line: Line, record: &Record, out: &mut [u8], at: usize) -> usize
    ensures { record { count = result; out = out.new } ≡ laid_at at (text_of (printed line «record».now)) out.old }
{
    match line {
        Line::Answer { reply } => answer_text(number(reply), out, at),
        Line::Counts { bytes } => counts_text(record, bytes, out, at),
        Line::Stop { at: place } => bad_text(place as u64, out, at),
        Line::Nothing => at,
    }
}

fn counts_text(record: &Record, bytes: u64, out: &mut [u8], at: usize) -> usize
    ensures { record { count = result; out = out.new } ≡ laid_at at (text_of (reported «record».now bytes)) out.old }
{
    report_text(
        record.seq_len,
        bytes,
        &record.lens,
        record.shape.layers,
        out,
        at,
    )
}
