// The scores of four rows at once: a running sum for each, in the order of its own row.
ghost use Rattle.std.specs.Prelude.{◌≡◌, map, ◌+◌, ◌*◌, ◌<◌, ◌≤◌, length};
ghost use Rattle.std.specs.Float.{binary32};
ghost use Rattle.std.specs.Float.Ieee.{mul};
ghost use Rattle.lists.specs.Chunks.{tab, part};
ghost use Rattle.numbers.specs.Word.{float, word};
ghost use Rattle.rows.specs.Row.{f32_at};
ghost use Rattle.shapes.specs.Format.{format_number};
ghost use Rattle.shapes.specs.Buffers.{buffers};
ghost use Rattle.attention.specs.Order.{f32_dot, row_dot, added};
ghost use Rattle.attention.specs.Block.{cells_of, scales_in};
ghost use Rattle.attention.specs.Fits.{IsF32};

use crate::words::four_int4;
use attention::block::Block;
use numbers::words::{f32_to_word, word_to_f32};
use shapes::Format;

// The dots of four rows with a query.
pub(crate) fn four_dots(four: &Block, query: &[f32]) -> [f32; 4]
    requires { (four.now.numbers ≡ length query.now) × (four.now.rows ≡ 4) }
    ensures { let b = buffers four.now.cells.now four.now.scales.now in
        let d = length query.now in
        let f = format_number four.now.format in
        result ≡ tab 4 (λ i. row_dot f query.now (cells_of f d b i) (scales_in f d b i)) }
{
    // One test of two ways, which the back end takes out of the loop over the fours; past F32 the format is INT4.
    match four.format {
        Format::F32 => four_f32(query, four.cells),
        _ => four_int4(query, four.cells, four.scales),
    }
}

// Stores the words of dots, each times the given scale.
pub(crate) fn put_scores(dots: &[f32], scale: f32, out: &mut [u32])
    requires { length out.old ≡ length dots.now }
    ensures { out.new ≡ map (λ dot. word (mul binary32 dot scale)) dots.now }
{
    for (i, dot) in dots.iter().enumerate() {
        out[i] = f32_to_word(*dot * scale);
    }
}

fn four_f32(query: &[f32], cells: &[u8]) -> [f32; 4]
    requires { IsF32 (4 * length query.now) (length cells.now) × (length query.now ≤ 256) }
    ensures { result
        ≡ tab 4 (λ i. f32_dot query.now (part (i * (length query.now * 4)) (length query.now * 4) cells.now)) }
{
    let mut sums = [0.0; 4];
    for (d, q) in query.iter().enumerate() {
        add_numbers(*q, cells, query.len(), d, &mut sums);
    }
    sums
}

// Number `d` of each of four rows of `n` numbers, times the query's.
fn add_numbers(q: f32, cells: &[u8], n: usize, d: usize, sums: &mut [f32; 4])
    requires { IsF32 (4 * n) (length cells.now) × (n ≤ 256) × (d < n) }
    ensures { sums.new ≡ added (λ i. mul binary32 q (float (f32_at cells.now (i * n + d)))) sums.old }
{
    let (words, _) = cells.as_chunks();
    for (i, sum) in sums.iter_mut().enumerate() {
        *sum += q * word_to_f32(u32::from_le_bytes(words[i * n + d]));
    }
}
