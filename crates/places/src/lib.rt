// Places: where the positions of a head's block lie in both buffers.
#![tactic(auto)]

ghost use Rattle.std.specs.Prelude.{◌≡◌};
ghost use Rattle.places.specs.Span.{has_span_of, span_of};

use shapes::{Shape, cell_bytes, in_limits, scale_words};

// The offsets of some positions of a head's block in both buffers: where they begin and end.
#[derive(Clone, Copy)]
pub struct Span {
    pub cells_from: usize,
    pub cells_to: usize,
    pub scales_from: usize,
    pub scales_to: usize,
}

// The offsets of positions `p` to `p + n - 1`; all 0 where there are no such positions.
pub fn span_of(shape: Shape, layer: u32, side: u32, head: u32, p: usize, n: usize) -> Span
    ensures { result ≡ span_of shape layer side head p n }
{
    if !has_span(shape, layer, side, head, p, n) {
        return Span {
            cells_from: 0,
            cells_to: 0,
            scales_from: 0,
            scales_to: 0,
        };
    }
    let c = cell_bytes(shape.format, shape.head_size);
    let w = scale_words(shape.format, shape.head_size);
    let block = (2 * layer as usize + side as usize) * shape.heads as usize + head as usize;
    let first = block * shape.capacity as usize + p;
    let end = first + n;
    Span {
        cells_from: first * c,
        cells_to: end * c,
        scales_from: first * w,
        scales_to: end * w,
    }
}

fn has_span(shape: Shape, layer: u32, side: u32, head: u32, p: usize, n: usize) -> bool
    ensures { result ≡ has_span_of shape layer side head p n }
{
    let c = shape.capacity as usize;
    if c < p {
        return false;
    }
    let block = (layer < shape.layers) & ((side < 2) & ((head < shape.heads) & (n <= c - p)));
    in_limits(shape) & block
}
