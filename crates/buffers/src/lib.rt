// Buffers: rows of numbers in both buffers, appended to a layer and removed from it. The caller says how many positions the layer has.
#![tactic(auto)]

ghost use Rattle.std.specs.Prelude.{◌≡◌, ◌&&◌, ℕ, ◌+◌, ◌*◌, ◌≤◌, ◌<◌, List, length, replicate};
ghost use Rattle.lists.specs.Chunks.{joined};
ghost use Rattle.replies.specs.Tried.{tells};
ghost use Rattle.shapes.specs.Buffers.{buffers};
ghost use Rattle.shapes.specs.Format.{format_number};
ghost use Rattle.shapes.specs.Shape.{bytes_of, words_of, width, cell_total, scale_total, within, exact};
ghost use Rattle.places.specs.Span.{span_at, span_of};
ghost use Rattle.rows.specs.Row.{row_cells, row_scales};
ghost use Rattle.buffers.specs.Write.{written_side, zeros};
ghost use Rattle.buffers.specs.Calls.{head_numbers, cell_row_of, scale_row, append_rows_of, remove_rows_of};
ghost use Rattle.buffers.specs.Fits.{RunInside, IsRoom, HeadRows};
ghost use Rattle.buffers.specs.Heads.{AcceptsHead, LeavesHead};
ghost use Rattle.buffers.specs.Side.{side_number};

use encode::put_row;
use places::{Span, span_of};
use shapes::{Format, Shape, cell_bytes, room_reply, scale_words};

// Zeroes both buffers.
pub fn clear_all(cells: &mut [u8], scales: &mut [u32])
    ensures cells { cells.new ≡ replicate (length cells.old) 0 }
    ensures scales { scales.new ≡ replicate (length scales.old) 0 }
{
    cells.fill(0);
    scales.fill(0);
}

// Appends keys and values to a layer that has `len` positions, where they fit, and answers whether they do.
pub fn append_rows(
    shape: Shape,
    layer: u32,
    len: u32,
    keys: &[u32],
    values: &[u32],
    cells: &mut [u8],
    scales: &mut [u32],
) -> bool
    ensures { tells result (buffers cells.new scales.new)
        ≡ append_rows_of shape layer len keys.now values.now (buffers cells.old scales.old) }
{
    if !has_room(shape, cells.len(), scales.len()) {
        return false;
    }
    let width = shape.heads as usize * shape.head_size as usize;
    let n = keys.len() / width;
    let fits = (layer < shape.layers) & (len as usize + n <= shape.capacity as usize);
    let whole = (keys.len() % width == 0) & (values.len() == keys.len());
    if !(fits & whole) {
        return false;
    }
    let run = Run {
        shape,
        layer,
        p: len as usize,
        n,
    };
    run.put(Side::Keys, keys, cells, scales);
    run.put(Side::Values, values, cells, scales);
    true
}

// Removes the positions from `t` on of a layer that has `len`, where it fits, and answers whether it does.
pub fn remove_rows(
    shape: Shape,
    layer: u32,
    len: u32,
    t: u32,
    cells: &mut [u8],
    scales: &mut [u32],
) -> bool
    ensures { tells result (buffers cells.new scales.new)
        ≡ remove_rows_of shape layer len t (buffers cells.old scales.old) }
{
    let fits = (layer < shape.layers) & (len <= shape.capacity);
    if !(has_room(shape, cells.len(), scales.len()) & fits) {
        return false;
    }
    if t < len {
        let run = Run {
            shape,
            layer,
            p: t as usize,
            n: (len - t) as usize,
        };
        run.clear(Side::Keys, cells, scales);
        run.clear(Side::Values, cells, scales);
    }
    true
}

// Whether a shape is inside the limits and both buffers are as long as it needs.
fn has_room(shape: Shape, cells: usize, scales: usize) -> bool
    ensures { result ≡ (within shape && exact shape cells scales) }
{
    room_reply(shape, cells, scales).is_ok()
}

// The two sides of a layer.
#[derive(Clone, Copy)]
enum Side {
    Keys,
    Values,
}

impl From<Side> for u32 {
    ghost from_gives = { λ side number. number ≡ side_number side };

    fn from(side: Side) -> u32 {
        side as u32
    }
}

// The positions `p` to `p + n - 1` of a layer, which the shape has.
#[derive(Clone, Copy)]
struct Run {
    shape: Shape,
    layer: u32,
    p: usize,
    n: usize,
    ghost inside: { RunInside shape layer p n },
}

impl Run {
    // Eight positions at a time, since their numbers lie side by side: memory is read nearly in its order.
    #[tactic(auto, using(crate::proofs::PositionLaws::next_in))]
    fn put(self, side: Side, numbers: &[u32], cells: &mut [u8], scales: &mut [u32])
        requires room { IsRoom self.shape (length cells.old) (length scales.old) }
        requires numbers_len { length numbers.now ≡ self.n * width self.shape }
        ensures cells { cells.new ≡ written_side (bytes_of self.shape) self.shape self.layer (side_number side) self.p self.n (cell_row_of self.shape numbers.now) cells.old }
        ensures scales { scales.new ≡ written_side (words_of self.shape) self.shape self.layer (side_number side) self.p self.n (scale_row self.shape numbers.now) scales.old }
    {
        let width = self.shape.heads as usize * self.shape.head_size as usize;
        for j in (0..self.n).step_by(8) {
            let k = (self.n - j).min(8);
            let a = j * width;
            let next = Run {
                shape: self.shape,
                layer: self.layer,
                p: self.p + j,
                n: k,
            };
            next.put_heads(side, &numbers[a..a + k * width], cells, scales);
        }
    }

    // Rows of numbers in each head.
    fn put_heads(self, side: Side, numbers: &[u32], cells: &mut [u8], scales: &mut [u32])
        requires room { IsRoom self.shape (length cells.old) (length scales.old) }
        requires numbers_len { length numbers.now ≡ self.n * width self.shape }
        ensures cells { cells.new ≡ written_side (bytes_of self.shape) self.shape self.layer (side_number side) self.p self.n (cell_row_of self.shape numbers.now) cells.old }
        ensures scales { scales.new ≡ written_side (words_of self.shape) self.shape self.layer (side_number side) self.p self.n (scale_row self.shape numbers.now) scales.old }
    {
        self.each_head(side, cells, scales, |h, cells, scales| {
            put_rows(self.shape, h, self.n, numbers, cells, scales)
        });
    }

    // Zeros in each head.
    fn clear(self, side: Side, cells: &mut [u8], scales: &mut [u32])
        requires { IsRoom self.shape (length cells.old) (length scales.old) }
        ensures cells { cells.new ≡ written_side (bytes_of self.shape) self.shape self.layer (side_number side) self.p self.n (zeros (bytes_of self.shape) (side_number side)) cells.old }
        ensures scales { scales.new ≡ written_side (words_of self.shape) self.shape self.layer (side_number side) self.p self.n (zeros (words_of self.shape) (side_number side)) scales.old }
    {
        self.each_head(
            side,
            cells,
            scales,
            |_, cells, scales| clear_all(cells, scales),
        );
    }

    // Lends `write` the positions in each head: head after head, a block further in both buffers.
    fn each_head<F: Fn(usize, &mut [u8], &mut [u32])>(
        self,
        side: Side,
        cells: &mut [u8],
        scales: &mut [u32],
        write: F,
    )
        requires room { IsRoom self.shape (length cells.old) (length scales.old) }
        requires accepts { (h : ℕ) → h < self.shape.heads
            → AcceptsHead F.Fn write h (self.n * bytes_of self.shape) (self.n * words_of self.shape) }
        ensures { (rows rows' : ℕ → ℕ → List ℕ)
            → ((h : ℕ) → h < self.shape.heads
            → LeavesHead F.Fn write h (self.n * bytes_of self.shape) (self.n * words_of self.shape)
            (joined self.n (rows h)) (joined self.n (rows' h)))
            → (cells.new ≡ written_side (bytes_of self.shape) self.shape self.layer (side_number side) self.p self.n rows cells.old)
            × (scales.new ≡ written_side (words_of self.shape) self.shape self.layer (side_number side) self.p self.n rows' scales.old) }
    {
        let side = u32::from(side);
        let first = span_of(self.shape, self.layer, side, 0, self.p, self.n);
        let c = cell_bytes(self.shape.format, self.shape.head_size);
        let w = scale_words(self.shape.format, self.shape.head_size);
        for h in 0..self.shape.heads as usize {
            let span = self.head(side, first, c, w, h);
            write(
                h,
                &mut cells[span.cells_from..span.cells_to],
                &mut scales[span.scales_from..span.scales_to],
            );
        }
    }

    // Where the positions lie in head `h`: a block further for each head than in the first, where rows have `c` and `w` elements.
    #[tactic(auto, using(crate::proofs::LoopLaws::cells_fit, crate::proofs::LoopLaws::words_fit))]
    fn head(self, side: u32, first: Span, c: usize, w: usize, h: usize) -> Span
        requires side_in { side < 2 }
        requires first { first ≡ span_of self.shape self.layer side 0 self.p self.n }
        requires c { c ≡ bytes_of self.shape }
        requires w { w ≡ words_of self.shape }
        requires there { h < self.shape.heads }
        ensures value { result ≡ span_at self.shape self.layer side h self.p self.n }
        ensures cells { (result.cells_from ≤ result.cells_to) × (result.cells_to ≤ cell_total self.shape) }
        ensures scales { (result.scales_from ≤ result.scales_to) × (result.scales_to ≤ scale_total self.shape) × (result.scales_to ≤ 68719476736) }
    {
        let a = h * (self.shape.capacity as usize * c);
        let b = h * (self.shape.capacity as usize * w);
        Span {
            cells_from: first.cells_from + a,
            cells_to: first.cells_to + a,
            scales_from: first.scales_from + b,
            scales_to: first.scales_to + b,
        }
    }
}

// Head `h` of `n` positions. Each format is named, so that the back end makes a loop of each in which no format is tested.
fn put_rows(shape: Shape, h: usize, n: usize, numbers: &[u32], cells: &mut [u8], scales: &mut [u32])
    requires { HeadRows shape h n (length numbers.now) (length cells.old) (length scales.old) }
    ensures cells { cells.new ≡ joined n (cell_row_of shape numbers.now h) }
    ensures scales { scales.new ≡ joined n (scale_row shape numbers.now h) }
{
    match Format::try_from(shape.format) {
        Ok(Format::F32) => put_rows_in(Format::F32, shape, h, n, numbers, cells, scales),
        Ok(Format::Bf16) => put_rows_in(Format::Bf16, shape, h, n, numbers, cells, scales),
        Ok(Format::Int8) => put_rows_in(Format::Int8, shape, h, n, numbers, cells, scales),
        Ok(Format::Int4) => put_rows_in(Format::Int4, shape, h, n, numbers, cells, scales),
        Err(_) => unreachable!(),
    }
}

// Row after row, in the shape's format.
#[tactic(auto, using(crate::proofs::HeadLaws::rows_there))]
fn put_rows_in(
    format: Format,
    shape: Shape,
    h: usize,
    n: usize,
    numbers: &[u32],
    cells: &mut [u8],
    scales: &mut [u32],
)
    requires { (format_number format ≡ shape.format) × HeadRows shape h n (length numbers.now) (length cells.old) (length scales.old) }
    ensures cells { cells.new ≡ joined n (λ i. row_cells (format_number format) (head_numbers shape numbers.now h i)) }
    ensures scales { scales.new ≡ joined n (λ i. row_scales (format_number format) (head_numbers shape numbers.now h i)) }
{
    let format = u32::from(format);
    let d = shape.head_size as usize;
    let c = cell_bytes(format, shape.head_size);
    let w = scale_words(format, shape.head_size);
    let width = shape.heads as usize * d;
    for i in 0..n {
        let from = i * width + h * d;
        let a = i * c;
        let b = i * w;
        put_row(
            format,
            &numbers[from..from + d],
            &mut cells[a..a + c],
            &mut scales[b..b + w],
        );
    }
}
