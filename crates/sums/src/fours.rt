// The terms of four F32 rows at once, where they have no NaN.
ghost use Rattle.std.specs.Prelude.{◌≡◌, true, false, cond, ◌+◌, ◌*◌, ◌/◌, ◌<◌, ◌≤◌, length, get_or};
ghost use Rattle.std.specs.Float.{nan, binary32};
ghost use Rattle.std.specs.Float.Ieee.{add, nan_bits};
ghost use Rattle.lists.specs.Chunks.{turns, some, part};
ghost use Rattle.shapes.specs.Format.{format_number};
ghost use Rattle.shapes.specs.declared.Format.TheVariants.{F32};
ghost use Rattle.shapes.specs.Buffers.{buffers};
ghost use Rattle.rows.specs.Row.{f32_at};
ghost use Rattle.attention.specs.Order.{f32_term, added};
ghost use Rattle.attention.specs.Block.{rows_added};
ghost use Rattle.attention.specs.Fits.{IsF32};

use crate::rest::add_rest;
use crate::stored::{nan_at, nans, plain_at};
use attention::block::Block;

// Adds the terms of F32 rows, four at a time while four more lie behind them, and what is left row by row.
pub(crate) fn add_f32_rows(block: &Block, weights: &[f32], out: &mut [f32])
    requires { (block.now.numbers ≡ length out.old)
        × (block.now.rows ≡ length weights.now)
        × (block.now.format ≡ F32) }
    ensures { out.new
        ≡ rows_added (format_number block.now.format) weights.now (buffers block.now.cells.now block.now.scales.now) block.now.numbers out.old }
{
    let fours = (weights.len() / 4).saturating_sub(1);
    // The first four rows go the plain way: nobody has looked for a NaN in them.
    let mut is_plain = false;
    for k in 0..fours {
        let p = k * 4;
        let four = block.part(p, 4);
        let next = block.part(p + 4, 4);
        is_plain = add_four(is_plain, &four, &next, &weights[p..p + 4], out);
    }
    let p = fours * 4;
    let rest = block.part(p, weights.len() - p);
    add_rest(&rest, &weights[p..], out);
}

// Adds the terms of four rows, at once where it is known that they have no NaN, and answers whether the next four have none.
fn add_four(is_plain: bool, four: &Block, next: &Block, weights: &[f32], out: &mut [f32]) -> bool
    requires rows { (four.now.numbers ≡ length out.old)
        × (four.now.rows ≡ 4)
        × (four.now.format ≡ F32)
        × (length weights.now ≡ 4) }
    requires behind { (next.now.numbers ≡ length out.old) × (next.now.rows ≡ 4) × (next.now.format ≡ F32) }
    requires scanned { is_plain ≡ true
        → some (4 * length out.old) (λ d. nan_bits binary32 (f32_at four.now.cells.now d)) ≡ false }
    ensures sums { out.new
        ≡ rows_added (format_number four.now.format) weights.now (buffers four.now.cells.now four.now.scales.now) four.now.numbers out.old }
    ensures scan { result ≡ true
        → some (4 * length out.old) (λ d. nan_bits binary32 (f32_at next.now.cells.now d)) ≡ false }
{
    if is_plain {
        return add_plain(weights, four.cells, next.cells, out) == 0;
    }
    add_rest(four, weights, out);
    nans(next.cells, 4 * out.len()) == 0
}

// Four F32 rows without a NaN: each sum takes their terms in order, while the NaNs of the next four rows are counted.
fn add_plain(weights: &[f32], cells: &[u8], next: &[u8], out: &mut [f32]) -> u32
    requires lengths { (length weights.now ≡ 4)
        × IsF32 (4 * length out.old) (length cells.now)
        × IsF32 (4 * length out.old) (length next.now)
        × (length out.old ≤ 256) }
    requires plain { some (4 * length out.old) (λ d. nan_bits binary32 (f32_at cells.now d)) ≡ false }
    ensures sums { out.new
        ≡ turns 4
        (λ i. added (λ d. f32_term (get_or weights.now i nan) cells.now (i * length out.old + d))) out.old }
    ensures counted { result
        ≡ turns (length out.old)
        (λ d nans.
        nans
        + turns 4 (λ i nans. nans + cond (nan_bits binary32 (f32_at next.now (i * length out.old + d))) 1 0) 0)
        0 }
{
    let mut nans = 0;
    let n = out.len();
    for (d, sum) in out.iter_mut().enumerate() {
        let tally = with_terms(Tally { sum: *sum, nans }, weights, cells, next, n, d);
        *sum = tally.sum;
        nans = tally.nans;
    }
    nans
}

// A sum so far, and the NaNs counted so far.
#[derive(Clone, Copy)]
struct Tally {
    sum: f32,
    nans: u32,
}

// The terms of number `d` of four rows of `n` numbers, while the same numbers of the next four rows are looked at.
// Rows are lent two by two: beside eight places the back end has no room to take eight numbers at a time.
fn with_terms(tally: Tally, weights: &[f32], cells: &[u8], next: &[u8], n: usize, d: usize) -> Tally
    requires lengths { (length weights.now ≡ 4)
        × IsF32 (4 * n) (length cells.now)
        × IsF32 (4 * n) (length next.now)
        × (d < n)
        × (n ≤ 256) }
    requires plain { some (4 * n) (λ d. nan_bits binary32 (f32_at cells.now d)) ≡ false }
    requires few { tally.nans ≤ 1020 }
    ensures sum { result.sum
        ≡ turns 4
        (λ i sum. add binary32 sum (f32_term (get_or weights.now i nan) cells.now (i * n + d))) tally.sum }
    ensures nans { result.nans
        ≡ tally.nans
        + turns 4 (λ i nans. nans + cond (nan_bits binary32 (f32_at next.now (i * n + d))) 1 0) 0 }
{
    let half = cells.len() / 2;
    let mut now = tally;
    for i in 0..4 {
        now = with_term(
            now,
            weights[i],
            half_of(cells, half, i),
            half_of(next, half, i),
            i % 2 * n + d,
        );
    }
    now
}

// The half in which row `i` of four rows lies, where two rows have `half` bytes.
fn half_of(rows: &[u8], half: usize, i: usize) -> &[u8]
    requires { (i < 4) × (2 * half ≤ length rows.now) }
    ensures part { result.now ≡ part (i / 2 * half) half rows.now }
    ensures len { length result.now ≡ half }
{
    let a = i / 2 * half;
    &rows[a..a + half]
}

// One row's term more, and one number more of a row behind it. Interleaved, so that the back end keeps one induction variable instead of eight.
fn with_term(tally: Tally, weight: f32, cells: &[u8], next: &[u8], d: usize) -> Tally
    requires { (d * 4 + 4 ≤ length cells.now)
        × (nan_bits binary32 (f32_at cells.now d) ≡ false)
        × (d * 4 + 4 ≤ length next.now)
        × (tally.nans ≤ 1024) }
    ensures { (result.sum ≡ add binary32 tally.sum (f32_term weight cells.now d))
        × (result.nans ≡ tally.nans + cond (nan_bits binary32 (f32_at next.now d)) 1 0) }
{
    let sum = tally.sum + weight * plain_at(cells, d);
    let nans = tally.nans + nan_at(next, d);
    Tally { sum, nans }
}
