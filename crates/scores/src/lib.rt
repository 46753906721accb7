// Scores: the first positions of one head's block under a query, in the Rust's order of float operations.
#![tactic(auto)]

pub(crate) mod fours;
pub(crate) mod rest;
pub(crate) mod words;

ghost use Rattle.std.specs.Prelude.{◌≡◌, ◌++◌, ◌*◌, ◌/◌, length, drop};
ghost use Rattle.shapes.specs.Format.{format_number};
ghost use Rattle.shapes.specs.Buffers.{buffers};
ghost use Rattle.replies.specs.Tried.{tells};
ghost use Rattle.attention.specs.Block.{scores_of_block, block_scores_of};

use attention::block::Block;
use fours::{four_dots, put_scores};
use rest::score_rest;

// Scores as many positions as `out` has places, under a query, and answers whether what is lent is such a block. The first half of the Rust's `decode_head_attention_f32` and `decode_head_attention_int4`.
pub fn block_scores(
    format: u32,
    query: &[f32],
    scale: f32,
    cells: &[u8],
    scales: &[u32],
    out: &mut [u32],
) -> bool
    ensures { tells result out.new
        ≡ block_scores_of format query.now scale (buffers cells.now scales.now) out.old }
{
    let Some(block) = Block::of(format, query.len(), out.len(), cells, scales) else {
        return false;
    };
    score_rows(&block, query, scale, out);
    true
}

// Four rows at a time, and what is left row by row.
fn score_rows(block: &Block, query: &[f32], scale: f32, out: &mut [u32])
    requires { (block.now.numbers ≡ length query.now) × (block.now.rows ≡ length out.old) }
    ensures { out.new
        ≡ scores_of_block (format_number block.now.format) query.now scale (buffers block.now.cells.now block.now.scales.now) (length out.old) }
{
    score_fours(block, query, scale, out);
    let p = out.len() / 4 * 4;
    let rest = block.part(p, out.len() - p);
    score_rest(&rest, query, scale, &mut out[p..]);
}

// Scores four rows at a time, as many as there are, and leaves the rest.
fn score_fours(block: &Block, query: &[f32], scale: f32, out: &mut [u32])
    requires { (block.now.numbers ≡ length query.now) × (block.now.rows ≡ length out.old) }
    ensures { out.new
        ≡ scores_of_block (format_number block.now.format) query.now scale (buffers block.now.cells.now block.now.scales.now) (length out.old / 4 * 4)
        ++ drop (length out.old / 4 * 4) out.old }
{
    // A copy, so that the loop reads none of it anew.
    let rows = *block;
    for k in 0..out.len() / 4 {
        let p = k * 4;
        let four = rows.part(p, 4);
        put_scores(&four_dots(&four, query), scale, &mut out[p..p + 4]);
    }
}
