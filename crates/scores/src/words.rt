// INT4 scores of four rows at once, by words of four bytes: the back end packs the four rows' codes into one vector.
ghost use Rattle.std.specs.Prelude.{◌≡◌, ◌+◌, ◌*◌, ◌/◌, ◌%◌, ◌^◌, ◌<◌, ◌≤◌, length, get_or};
ghost use Rattle.std.specs.Float.{nan, binary32};
ghost use Rattle.std.specs.Float.Ieee.{add, mul};
ghost use Rattle.lists.specs.Chunks.{tab, turns, part};
ghost use Rattle.numbers.specs.Word.{float};
ghost use Rattle.numbers.specs.Code.{less8};
ghost use Rattle.attention.specs.Order.{add_byte, added, group_dot, int4_dot};
ghost use Rattle.attention.specs.Fits.{IsInt4};

use decode::word_of;
use numbers::words::word_to_f32;

// The code less 8 that begins at bit `from` of a word. The cast is at 32 bits, which the back end packs.
fn code_in(word: u32, from: u32) -> f32
    requires { from ≤ 28 }
    ensures { result ≡ less8 (word / 2 ^ from % 16) }
{
    ((word >> from) % 16) as f32 - 8.0
}

// One byte of a row: the query's number times the low code is added, then that 16 places on times the high one.
fn lane_byte(sum: f32, low: f32, high: f32, word: u32, from: u32) -> f32
    requires { from ≤ 24 }
    ensures { result
        ≡ add binary32
        (add binary32 sum (mul binary32 low (less8 (word / 2 ^ from % 16))))
        (mul binary32 high (less8 (word / 2 ^ (from + 4) % 16))) }
{
    sum + low * code_in(word, from) + high * code_in(word, from + 4)
}

// Four bytes of a group, from byte `i` on.
fn lane_word(sum: f32, query: &[f32], bytes: &[u8], i: usize) -> f32
    requires { (length query.now ≡ 32) × (length bytes.now ≡ 16) × (i + 4 ≤ 16) }
    ensures { result ≡ turns 4 (λ k. add_byte query.now bytes.now (i + k)) sum }
{
    let word = word_of(&bytes[i..i + 4]);
    let mut next = sum;
    for k in 0..4 {
        next = lane_byte(next, query[i + k], query[i + k + 16], word, 8 * k as u32);
    }
    next
}

// Four bytes of group `g` of each of four rows of `w` groups, from byte `k` on.
fn add_words(query: &[f32], cells: &[u8], w: usize, g: usize, k: usize, sums: &mut [f32; 4])
    requires group { (length query.now ≡ 32) × (k + 4 ≤ 16) }
    requires rows { (length cells.now ≡ 4 * w * 16) × (g < w) × (w ≤ 8) }
    ensures { sums.new
        ≡ tab 4
        (λ i. turns 4 (λ j. add_byte query.now (part ((i * w + g) * 16) 16 cells.now) (k + j)) (get_or sums.old i nan)) }
{
    for (i, sum) in sums.iter_mut().enumerate() {
        let a = (i * w + g) * 16;
        *sum = lane_word(*sum, query, &cells[a..a + 16], k);
    }
}

// Group `g` of each of four rows of `w` groups, under the same 32 numbers of the query.
fn four_groups(query: &[f32], cells: &[u8], w: usize, g: usize) -> [f32; 4]
    requires group { length query.now ≡ 32 }
    requires rows { (length cells.now ≡ 4 * w * 16) × (g < w) × (w ≤ 8) }
    ensures { result ≡ tab 4 (λ i. group_dot query.now (part ((i * w + g) * 16) 16 cells.now)) }
{
    let mut sums = [0.0; 4];
    for k in (0..16).step_by(4) {
        add_words(query, cells, w, g, k, &mut sums);
    }
    sums
}

// The sums of group `g` of each of four rows of `w` groups, each times its group's scale.
fn add_groups(sums: [f32; 4], scales: &[u32], w: usize, g: usize, totals: &mut [f32; 4])
    requires { (length scales.now ≡ 4 * w) × (g < w) × (w ≤ 8) }
    ensures { totals.new
        ≡ added (λ i. mul binary32 (get_or sums i nan) (float (get_or scales.now (i * w + g) 0))) totals.old }
{
    for (i, total) in totals.iter_mut().enumerate() {
        *total += sums[i] * word_to_f32(scales[i * w + g]);
    }
}

// Four rows of codes and scale words, scored under one query.
pub(crate) fn four_int4(query: &[f32], cells: &[u8], scales: &[u32]) -> [f32; 4]
    requires rows { IsInt4 (4 * length query.now) (length cells.now) (length scales.now) }
    requires groups { (length query.now % 32 ≡ 0) × (length query.now ≤ 256) }
    ensures { let w = length query.now / 32 in
        result
        ≡ tab 4
        (λ i. int4_dot query.now (part (i * (w * 16)) (w * 16) cells.now) (part (i * w) w scales.now)) }
{
    let w = query.len() / 32;
    let mut totals = [0.0; 4];
    for g in 0..w {
        let a = g * 32;
        let sums = four_groups(&query[a..a + 32], cells, w, g);
        add_groups(sums, scales, w, g, &mut totals);
    }
    totals
}
