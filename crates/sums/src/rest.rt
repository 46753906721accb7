// The terms of rows added one by one, in each format that has sums.
ghost use Rattle.std.specs.Prelude.{◌≡◌, ◌*◌, length};
ghost use Rattle.std.specs.Float.{binary32};
ghost use Rattle.std.specs.Float.Ieee.{mul};
ghost use Rattle.shapes.specs.Format.{format_number};
ghost use Rattle.shapes.specs.Buffers.{buffers};
ghost use Rattle.attention.specs.Order.{group_code, f32_term, int4_term, row_term, added};
ghost use Rattle.attention.specs.Block.{rows_added};
ghost use Rattle.attention.specs.Fits.{IsF32, IsInt4};

use crate::stored::word_at;
use attention::block::Block;
use numbers::codes::less_8;
use numbers::words::word_to_f32;
use shapes::Format;

// Adds the terms of each row, one row after the other.
pub(crate) fn add_rest(block: &Block, weights: &[f32], out: &mut [f32])
    requires { (block.now.numbers ≡ length out.old) × (block.now.rows ≡ length weights.now) }
    ensures { out.new
        ≡ rows_added (format_number block.now.format) weights.now (buffers block.now.cells.now block.now.scales.now) block.now.numbers out.old }
{
    // A copy, so that the loop reads none of it anew.
    let all = *block;
    for (p, weight) in weights.iter().enumerate() {
        add_row(&all.part(p, 1), *weight, out);
    }
}

fn add_row(row: &Block, weight: f32, out: &mut [f32])
    requires { (row.now.numbers ≡ length out.old) × (row.now.rows ≡ 1) }
    ensures { out.new ≡ added (row_term (format_number row.now.format) weight row.now.cells.now row.now.scales.now) out.old }
{
    match row.format {
        Format::F32 => add_f32(weight, row.cells, out),
        Format::Int4 => add_int4(weight, row.cells, row.scales, out),
        Format::Bf16 | Format::Int8 => unreachable!(),
    }
}

fn add_f32(weight: f32, cells: &[u8], out: &mut [f32])
    requires { IsF32 (length out.old) (length cells.now) }
    ensures { out.new ≡ added (f32_term weight cells.now) out.old }
{
    for (d, sum) in out.iter_mut().enumerate() {
        *sum += weight * word_to_f32(word_at(cells, d));
    }
}

// The Rust's `sv_accum_i4`.
fn add_int4(weight: f32, cells: &[u8], scales: &[u32], out: &mut [f32])
    requires { IsInt4 (length out.old) (length cells.now) (length scales.now) }
    ensures { out.new ≡ added (int4_term weight cells.now scales.now) out.old }
{
    for (g, word) in scales.iter().enumerate() {
        let a = g * 32;
        let b = g * 16;
        add_group(
            weight,
            word_to_f32(*word),
            &cells[b..b + 16],
            &mut out[a..a + 32],
        );
    }
}

// A group's 32 codes under its scale: the low code of each byte, and the high one 16 places on.
fn add_group(weight: f32, scale: f32, bytes: &[u8], out: &mut [f32])
    requires { (length out.old ≡ 32) × (length bytes.now ≡ 16) }
    ensures { out.new ≡ added (λ i. mul binary32 (mul binary32 weight scale) (group_code bytes.now i)) out.old }
{
    for (i, byte) in bytes.iter().enumerate() {
        let low = out[i] + weight * scale * less_8(*byte % 16);
        let high = out[i + 16] + weight * scale * less_8(*byte / 16 % 16);
        out[i] = low;
        out[i + 16] = high;
    }
}
