// A reader walks a call file, record by record, up to the end or to what is no record.
ghost use Rattle.std.specs.Prelude.{◌≡◌, ◌+◌, ◌≤◌, length};
ghost use Rattle.shapes.specs.Buffers.{buffers};
ghost use Rattle.store.specs.Record.{new_record_of};
ghost use Rattle.store.specs.Calls.{no_shape};
ghost use Rattle.callfile.specs.Format.{entry_at_of};
ghost use Rattle.replay.specs.Transcript.{start, walk_from, laid_out, played};
ghost use Rattle.replay.specs.Turn.{turned};

use super::lines::line_text;
use super::{Played, tell};
use callfile::Entry;
use callfile::reader::Reader;
use store::Record;

pub(crate) fn walk_file(file: &[u8], cells: &mut [u8], scales: &mut [u32], out: &mut [u8]) -> Played
    requires { (length file.now ≤ 16384) × (4194304 ≤ length out.old) }
    ensures { played result cells.new scales.new out.new
        ≡ laid_out (walk_from (length file.now) file.now (start (buffers cells.old scales.old))) out.old }
{
    let mut reader = Reader::new(file);
    let mut so_far = nothing_played();
    loop {
        so_far = turn(file, reader.entry(), so_far, cells, scales, out);
        if so_far.place <= reader.place {
            return so_far;
        }
        reader = reader.moved(so_far.place);
    }
}

fn nothing_played() -> Played
    ensures { result ≡ record { place = 0; count = 0; after = new_record_of no_shape } }
{
    Played {
        place: 0,
        count: 0,
        after: Record::not_open(),
    }
}

// Plays the entry at the place reached, and lays its line behind those before it.
fn turn(
    file: &[u8],
    entry: Entry,
    so_far: Played,
    cells: &mut [u8],
    scales: &mut [u32],
    out: &mut [u8],
) -> Played
    requires entry_value { «entry» ≡ entry_at_of file.now so_far.place }
    requires so_far_in_bounds { so_far.count + 2048 ≤ length out.old }
    ensures { played result cells.new scales.new out.new
        ≡ turned file.now
        (played so_far cells.old scales.old out.old) }
{
    let mut after = so_far.after;
    let line = tell(file, so_far.place, entry, &mut after, cells, scales);
    Played {
        place: so_far.place + entry.size(),
        count: line_text(line, &after, out, so_far.count),
        after,
    }
}
