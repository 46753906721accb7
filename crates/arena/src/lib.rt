// Calls in the room at hand, from which a shape is lent exactly its need: the paper's section Call file.
#![tactic(auto)]

ghost use Rattle.std.specs.Prelude.{◌≡◌};
ghost use Rattle.replies.specs.Outcome.{answered};
ghost use Rattle.shapes.specs.Buffers.{buffers};
ghost use Rattle.store.specs.Calls.{store};
ghost use Rattle.arena.specs.Calls.{open_in, append_in_of, truncate_in_of};

use replies::Refusal;
use shapes::{Shape, need_of};
use store::Record;

// Makes an empty store in what the shape is lent; refused, the store that was there stays.
pub fn open_in(
    record: &mut Record,
    cells: &mut [u8],
    scales: &mut [u32],
    shape: Shape,
) -> Result<(), Refusal>
    ensures { answered result (store «record».new (buffers cells.new scales.new))
        ≡ open_in shape (store «record».old (buffers cells.old scales.old)) }
{
    let need = need_of(shape);
    let c = need.cells.min(cells.len());
    let s = need.scales.min(scales.len());
    *record = Record::open(shape, &mut cells[..c], &mut scales[..s])?;
    Ok(())
}

// Appends keys and values to a layer of the store at hand.
pub fn append_in(
    record: &mut Record,
    cells: &mut [u8],
    scales: &mut [u32],
    layer: u32,
    keys: &[u32],
    values: &[u32],
) -> Result<(), Refusal>
    ensures { answered result (store «record».new (buffers cells.new scales.new))
        ≡ append_in_of layer keys.now values.now (store «record».old (buffers cells.old scales.old)) }
{
    let need = need_of(record.shape);
    let c = need.cells.min(cells.len());
    let s = need.scales.min(scales.len());
    record.append(&mut cells[..c], &mut scales[..s], layer, keys, values)
}

// Keeps the first `t` positions of a layer of the store at hand.
pub fn truncate_in(
    record: &mut Record,
    cells: &mut [u8],
    scales: &mut [u32],
    layer: u32,
    t: u32,
) -> Result<(), Refusal>
    ensures { answered result (store «record».new (buffers cells.new scales.new))
        ≡ truncate_in_of layer t (store «record».old (buffers cells.old scales.old)) }
{
    let need = need_of(record.shape);
    let c = need.cells.min(cells.len());
    let s = need.scales.min(scales.len());
    record.truncate_to(&mut cells[..c], &mut scales[..s], layer, t)
}
