// Sums: the first positions of one head's block under weights, in the Rust's order of float operations.
#![tactic(auto)]

pub(crate) mod fours;
pub(crate) mod rest;
pub(crate) mod stored;

ghost use Rattle.std.specs.Prelude.{◌≡◌, map, length};
ghost use Rattle.numbers.specs.Word.{word};
ghost use Rattle.shapes.specs.Format.{format_number};
ghost use Rattle.shapes.specs.Buffers.{buffers};
ghost use Rattle.replies.specs.Tried.{tells};
ghost use Rattle.attention.specs.Block.{rows_added, sums_of_block, block_sums_of};

use attention::block::Block;
use fours::add_f32_rows;
use numbers::words::f32_to_word;
use rest::add_rest;
use shapes::Format;

// Sums as many positions as there are weights, and answers whether what is lent is such a block. The second half of the Rust's `decode_head_attention_f32` and `decode_head_attention_int4`.
pub fn block_sums(
    format: u32,
    weights: &[f32],
    cells: &[u8],
    scales: &[u32],
    out: &mut [u32],
) -> bool
    ensures { tells result out.new
        ≡ block_sums_of format weights.now (buffers cells.now scales.now) out.old }
{
    let Some(block) = Block::of(format, out.len(), weights.len(), cells, scales) else {
        return false;
    };
    sum_rows(&block, weights, out);
    true
}

// The sums grow in an array of floats, and leave as words.
fn sum_rows(block: &Block, weights: &[f32], out: &mut [u32])
    requires { (block.now.numbers ≡ length out.old) × (block.now.rows ≡ length weights.now) }
    ensures { out.new
        ≡ sums_of_block (format_number block.now.format) weights.now (buffers block.now.cells.now block.now.scales.now) block.now.numbers }
{
    let d = out.len();
    let mut sums = [0.0; 256];
    add_rows(block, weights, &mut sums[..d]);
    put_sums(&sums[..d], out);
}

fn put_sums(sums: &[f32], out: &mut [u32])
    requires { length out.old ≡ length sums.now }
    ensures { out.new ≡ map word sums.now }
{
    for (i, sum) in sums.iter().enumerate() {
        out[i] = f32_to_word(*sum);
    }
}

// Adds the terms of each position to what is there.
fn add_rows(block: &Block, weights: &[f32], out: &mut [f32])
    requires { (block.now.numbers ≡ length out.old) × (block.now.rows ≡ length weights.now) }
    ensures { out.new
        ≡ rows_added (format_number block.now.format) weights.now (buffers block.now.cells.now block.now.scales.now) block.now.numbers out.old }
{
    match block.format {
        Format::F32 => add_f32_rows(block, weights, out),
        _ => add_rest(block, weights, out),
    }
}
