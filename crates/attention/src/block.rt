// Rows of a format that has scores, one after the other, and parts of what stores them.
ghost use Rattle.std.specs.Prelude.{◌≡◌, true, false, ◌+◌, ◌-◌, ◌*◌, min, ◌≤◌, length, MatchOption};
ghost use Rattle.lists.specs.Chunks.{part};
ghost use Rattle.shapes.specs.Format.{format_number};
ghost use Rattle.attention.specs.Block.{block_fits_of};
ghost use Rattle.attention.specs.Fits.{SizedRows};

use crate::block_fits;
use shapes::{Format, cell_bytes, scale_words};

// Rows of one head as they are lent. What a row has is held beside, so that a loop over parts computes it once.
#[derive(Clone, Copy)]
pub struct Block<'a> {
    pub format: Format,
    // how many rows, and how many numbers, cells and scale words each has
    pub rows: usize,
    pub numbers: usize,
    pub row_cells: usize,
    pub row_scales: usize,
    pub cells: &'a [u8],
    pub scales: &'a [u32],
    pub ghost fits: { SizedRows (format_number format) numbers rows row_cells row_scales (length cells.now) (length scales.now) },
}

impl<'a> Block<'a> {
    // `rows` rows of `numbers` numbers in the format of that number, where it has scores and the lengths are theirs.
    pub fn of(
        number: u32,
        numbers: usize,
        rows: usize,
        cells: &'a [u8],
        scales: &'a [u32],
    ) -> Option<Block<'a>>
        ensures { MatchOption result
            (block_fits_of number numbers rows (length cells.now) (length scales.now) ≡ false)
            (λ b. (block_fits_of number numbers rows (length cells.now) (length scales.now) ≡ true)
            × (format_number b.format ≡ number)
            × (b.rows ≡ rows)
            × (b.numbers ≡ numbers)
            × (b.cells.now ≡ cells.now)
            × (b.scales.now ≡ scales.now)) }
    {
        let Ok(format) = Format::try_from(number) else {
            return None;
        };
        if !block_fits(number, numbers, rows, cells.len(), scales.len()) {
            return None;
        }
        Some(Block {
            format,
            rows,
            numbers,
            row_cells: cell_bytes(number, numbers as u32),
            row_scales: scale_words(number, numbers as u32),
            cells,
            scales,
        })
    }

    // The `n` rows from row `p` on, or as many of them as there are.
    pub fn part(&self, p: usize, n: usize) -> Block<'a>
        ensures shape { (result.format ≡ self.now.format)
            × (result.rows ≡ min n (self.now.rows - p))
            × (result.numbers ≡ self.now.numbers) }
        ensures sizes { (result.row_cells ≡ self.now.row_cells) × (result.row_scales ≡ self.now.row_scales) }
        ensures cells { result.cells.now ≡ part (p * self.now.row_cells) (n * self.now.row_cells) self.now.cells.now }
        ensures scales { result.scales.now ≡ part (p * self.now.row_scales) (n * self.now.row_scales) self.now.scales.now }
    {
        let first = p.min(self.rows);
        let rows = n.min(self.rows - first);
        Block {
            format: self.format,
            rows,
            numbers: self.numbers,
            row_cells: self.row_cells,
            row_scales: self.row_scales,
            cells: rows_of(self.cells, self.row_cells, first, rows),
            scales: rows_of(self.scales, self.row_scales, first, rows),
        }
    }
}

// The items of `n` rows from row `p` on, where a row has `each`.
fn rows_of<T: Copy>(items: &[T], each: usize, p: usize, n: usize) -> &[T]
    requires { p * each + n * each ≤ length items.now }
    ensures { result.now ≡ part (p * each) (n * each) items.now }
{
    let a = p * each;
    &items[a..a + n * each]
}
