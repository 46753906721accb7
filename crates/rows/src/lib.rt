// Rows: one head's numbers at one position, as cells and scale words, and what lengths such rows have.
#![tactic(auto)]

ghost use Rattle.std.specs.Prelude.{◌≡◌};
ghost use Rattle.rows.specs.Fit.{rows_fit_of};

use shapes::{cell_bytes, is_known, scale_words, whole_groups};

// Whether the lengths are those of `m` rows of `d` numbers.
pub fn rows_fit(format: u32, d: usize, m: usize, cells: usize, scales: usize) -> bool
    ensures { result ≡ rows_fit_of format d m cells scales }
{
    if 256 < d || 4096 < m {
        return false;
    }
    is_known(format)
        & whole_groups(format, d)
        & (cells == m * cell_bytes(format, d as u32))
        & (scales == m * scale_words(format, d as u32))
}
