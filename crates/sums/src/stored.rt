// What stands in an F32 row, and whether it is a NaN.
ghost use Rattle.std.specs.Prelude.{◌≡◌, false, cond, ◌+◌, ◌*◌, ◌≤◌, length};
ghost use Rattle.std.specs.Float.{binary32};
ghost use Rattle.std.specs.Float.Ieee.{nan_bits};
ghost use Rattle.lists.specs.Chunks.{turns};
ghost use Rattle.numbers.specs.Word.{float};
ghost use Rattle.rows.specs.Row.{f32_at};

// The word of number `d` of F32 rows.
pub(crate) fn word_at(cells: &[u8], d: usize) -> u32
    requires { d * 4 + 4 ≤ length cells.now }
    ensures { result ≡ f32_at cells.now d }
{
    let (words, _) = cells.as_chunks();
    u32::from_le_bytes(words[d])
}

// Number `d` of an F32 row that is no NaN.
pub(crate) fn plain_at(cells: &[u8], d: usize) -> f32
    requires { (d * 4 + 4 ≤ length cells.now) × (nan_bits binary32 (f32_at cells.now d) ≡ false) }
    ensures { result ≡ float (f32_at cells.now d) }
{
    f32::from_bits(word_at(cells, d))
}

// 1 where number `d` of F32 rows is a NaN, else 0: a count, which the back end makes of four numbers at once.
pub(crate) fn nan_at(cells: &[u8], d: usize) -> u32
    requires { d * 4 + 4 ≤ length cells.now }
    ensures { result ≡ cond (nan_bits binary32 (f32_at cells.now d)) 1 0 }
{
    u32::from(0x7F80_0000 < word_at(cells, d) % 0x8000_0000)
}

// How many of the first `n` numbers of F32 rows are NaN.
pub(crate) fn nans(cells: &[u8], n: usize) -> u32
    requires { (n * 4 ≤ length cells.now) × (n ≤ 1024) }
    ensures { result ≡ turns n (λ d nans. nans + cond (nan_bits binary32 (f32_at cells.now d)) 1 0) 0 }
{
    let mut count = 0;
    for d in 0..n {
        count += nan_at(cells, d);
    }
    count
}
