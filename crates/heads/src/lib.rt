// Heads: scores and weighted sums over a stored head. The Rust's `decode_head_attention_f32` and `decode_head_attention_int4`, cut at the softmax.
#![tactic(auto)]

ghost use Rattle.std.specs.Prelude.{◌≡◌, ◌++◌};
ghost use Rattle.replies.specs.Reply.{reply_number};
ghost use Rattle.replies.specs.Outcome.{lowest, answered};
ghost use Rattle.shapes.specs.Buffers.{buffers};
ghost use Rattle.store.specs.Record.{length_of};
ghost use Rattle.store.specs.Calls.{lent_refusals};
ghost use Rattle.heads.specs.Calls.{head_refusals, head_scores_of, head_sums_of};

use attention::has_scores;
use places::span_of;
use replies::{Refusal, require};
use scores::block_scores;
use store::Record;
use sums::block_sums;

// Scores as many positions of a head's keys as `out` has places, under a query and a scale.
pub fn scores(
    record: &Record,
    cells: &[u8],
    scales: &[u32],
    layer: u32,
    head: u32,
    query: &[f32],
    scale: f32,
    out: &mut [u32],
) -> Result<(), Refusal>
    ensures { answered result out.new
        ≡ head_scores_of «record».now (buffers cells.now scales.now) layer head query.now scale out.old }
{
    head_reply(
        record,
        cells.len(),
        scales.len(),
        layer,
        head,
        query.len(),
        out.len(),
    )?;
    let span = span_of(record.shape, layer, 0, head, 0, out.len());
    block_scores(
        record.shape.format,
        query,
        scale,
        &cells[span.cells_from..span.cells_to],
        &scales[span.scales_from..span.scales_to],
        out,
    );
    Ok(())
}

// Sums as many positions of a head's values as there are weights.
pub fn sums(
    record: &Record,
    cells: &[u8],
    scales: &[u32],
    layer: u32,
    head: u32,
    weights: &[f32],
    out: &mut [u32],
) -> Result<(), Refusal>
    ensures { answered result out.new
        ≡ head_sums_of «record».now (buffers cells.now scales.now) layer head weights.now out.old }
{
    head_reply(
        record,
        cells.len(),
        scales.len(),
        layer,
        head,
        out.len(),
        weights.len(),
    )?;
    let span = span_of(record.shape, layer, 1, head, 0, weights.len());
    block_sums(
        record.shape.format,
        weights,
        &cells[span.cells_from..span.cells_to],
        &scales[span.scales_from..span.scales_to],
        out,
    );
    Ok(())
}

// The lowest refusal: `given` numbers of a query or of an output, `m` scores or weights.
fn head_reply(
    record: &Record,
    cells: usize,
    scales: usize,
    layer: u32,
    head: u32,
    given: usize,
    m: usize,
) -> Result<(), Refusal>
    ensures { reply_number result
        ≡ lowest
        (lent_refusals «record».now cells scales
        ++ head_refusals «record».now.shape layer (length_of «record».now layer) head given m) }
{
    let shape = record.shape;
    record.store_reply(cells, scales)?;
    require(layer < shape.layers, Refusal::Layer)?;
    require(head < shape.heads, Refusal::Head)?;
    require(has_scores(shape.format), Refusal::Format)?;
    require(given == shape.head_size as usize, Refusal::Size)?;
    require(m <= record.length_of(layer) as usize, Refusal::Position)
}
