// Attention: what the scores and sums of the first positions of a head's block are, and which blocks have some.
#![tactic(auto)]

pub mod block;

ghost use Rattle.std.specs.Prelude.{◌≡◌};
ghost use Rattle.attention.specs.Order.{has_scores_of};
ghost use Rattle.attention.specs.Block.{block_fits_of};

use rows::rows_fit;
use shapes::Format;

// Whether a format has scores and sums.
pub fn has_scores(format: u32) -> bool
    ensures { result ≡ has_scores_of format }
{
    match Format::try_from(format) {
        Ok(Format::F32) => true,
        Ok(Format::Bf16) => false,
        Ok(Format::Int8) => false,
        Ok(Format::Int4) => true,
        Err(_) => false,
    }
}

// Whether a format has scores and the lengths are those of `m` rows of `d` numbers.
pub fn block_fits(format: u32, d: usize, m: usize, cells: usize, scales: usize) -> bool
    ensures { result ≡ block_fits_of format d m cells scales }
{
    has_scores(format) & rows_fit(format, d, m, cells, scales)
}
