// The scores of rows one by one, in each format that has scores.
ghost use Rattle.std.specs.Prelude.{◌≡◌, ◌*◌, length};
ghost use Rattle.std.specs.Float.{binary32};
ghost use Rattle.std.specs.Float.Ieee.{mul};
ghost use Rattle.shapes.specs.Format.{format_number};
ghost use Rattle.shapes.specs.Buffers.{buffers};
ghost use Rattle.attention.specs.Block.{scores_of_block};
ghost use Rattle.attention.specs.Order.{f32_dot, group_dot, int4_dot, row_dot};
ghost use Rattle.attention.specs.Fits.{IsF32, IsInt4};

use attention::block::Block;
use numbers::codes::less_8;
use numbers::words::{f32_to_word, word_to_f32};
use shapes::Format;

// Scores each row.
pub(crate) fn score_rest(block: &Block, query: &[f32], scale: f32, out: &mut [u32])
    requires { (block.now.numbers ≡ length query.now) × (block.now.rows ≡ length out.old) }
    ensures { out.new
        ≡ scores_of_block (format_number block.now.format) query.now scale (buffers block.now.cells.now block.now.scales.now) (length out.old) }
{
    for (p, score) in out.iter_mut().enumerate() {
        *score = f32_to_word(score_row(&block.part(p, 1), query, scale));
    }
}

fn score_row(row: &Block, query: &[f32], scale: f32) -> f32
    requires { (row.now.numbers ≡ length query.now) × (row.now.rows ≡ 1) }
    ensures { result ≡ mul binary32 (row_dot (format_number row.now.format) query.now row.now.cells.now row.now.scales.now) scale }
{
    match row.format {
        Format::F32 => score_f32(query, scale, row.cells),
        Format::Int4 => score_int4(query, scale, row.cells, row.scales),
        Format::Bf16 | Format::Int8 => unreachable!(),
    }
}

fn score_f32(query: &[f32], scale: f32, cells: &[u8]) -> f32
    requires { IsF32 (length query.now) (length cells.now) }
    ensures { result ≡ mul binary32 (f32_dot query.now cells.now) scale }
{
    let (words, _) = cells.as_chunks();
    let mut sum = 0.0;
    for (d, q) in query.iter().enumerate() {
        sum += *q * word_to_f32(u32::from_le_bytes(words[d]));
    }
    sum * scale
}

// The Rust's `dot_qf32_ki4`, times the given scale.
fn score_int4(query: &[f32], scale: f32, cells: &[u8], scales: &[u32]) -> f32
    requires { IsInt4 (length query.now) (length cells.now) (length scales.now) }
    ensures { result ≡ mul binary32 (int4_dot query.now cells.now scales.now) scale }
{
    let mut total = 0.0;
    for (g, word) in scales.iter().enumerate() {
        let a = g * 32;
        let b = g * 16;
        total += dot_group(&query[a..a + 32], &cells[b..b + 16], word_to_f32(*word));
    }
    total * scale
}

// The group's sum, times the group's scale.
fn dot_group(query: &[f32], bytes: &[u8], group_scale: f32) -> f32
    requires { (length query.now ≡ 32) × (length bytes.now ≡ 16) }
    ensures { result ≡ mul binary32 (group_dot query.now bytes.now) group_scale }
{
    let mut sum = 0.0;
    for (i, byte) in bytes.iter().enumerate() {
        let low = query[i] * less_8(*byte % 16);
        let high = query[i + 16] * less_8(*byte / 16 % 16);
        sum = sum + low + high;
    }
    sum * group_scale
}
