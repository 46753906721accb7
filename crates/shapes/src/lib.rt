// Shapes: the limits of a store, and the cell bytes and scale words that it needs. The paper's section Shape and room.
#![tactic(auto)]

ghost use Rattle.std.specs.Prelude.{◌≡◌, true, ◌≤◌};
ghost use Rattle.replies.specs.Reply.{reply_number};
ghost use Rattle.replies.specs.Outcome.{lowest};
ghost use Rattle.shapes.specs.Format.{known, whole_groups_of, format_number, NumberOf};
ghost use Rattle.shapes.specs.Shape.{cell_bytes_of, scale_words_of, total, cell_total, scale_total, limits, within, need_of, room_refusals};

use replies::{Refusal, require};

// The formats, by the paper's numbers.
#[derive(Clone, Copy, Debug, PartialEq, Eq)]
pub enum Format {
    F32,
    Bf16,
    Int8,
    Int4,
}

// A shape of any other number is outside the limits.
impl TryFrom<u32> for Format {
    type Error = Refusal;

    ghost try_from_gives = { NumberOf };

    fn try_from(number: u32) -> Result<Format, Refusal> {
        match number {
            0 => Ok(Format::F32),
            1 => Ok(Format::Bf16),
            2 => Ok(Format::Int8),
            3 => Ok(Format::Int4),
            _ => Err(Refusal::Shape),
        }
    }
}

impl From<Format> for u32 {
    ghost from_gives = { λ format number. number ≡ format_number format };

    fn from(format: Format) -> u32 {
        format as u32
    }
}

#[derive(Clone, Copy)]
pub struct Shape {
    pub format: u32,
    pub layers: u32,
    pub heads: u32,
    pub head_size: u32,
    pub capacity: u32,
}

// The lengths of the two buffers that a shape needs.
#[derive(Clone, Copy)]
pub struct Need {
    pub cells: usize,
    pub scales: usize,
}

// Whether the format is one that there is.
pub fn is_known(format: u32) -> bool
    ensures { result ≡ known format }
{
    Format::try_from(format).is_ok()
}

// B: the cell bytes of one position and head.
pub fn cell_bytes(format: u32, head_size: u32) -> usize
    ensures { result ≡ cell_bytes_of format head_size }
{
    let d = head_size as usize;
    match Format::try_from(format) {
        Ok(Format::F32) => 4 * d,
        Ok(Format::Bf16) => 2 * d,
        Ok(Format::Int8) => d,
        Ok(Format::Int4) => d / 2,
        Err(_) => 0,
    }
}

// S: the scale words of one position and head.
pub fn scale_words(format: u32, head_size: u32) -> usize
    ensures { result ≡ scale_words_of format head_size }
{
    match Format::try_from(format) {
        Ok(Format::F32) => 0,
        Ok(Format::Bf16) => 0,
        Ok(Format::Int8) => 1,
        Ok(Format::Int4) => head_size as usize / 32,
        Err(_) => 0,
    }
}

// Whether `d` numbers are whole groups.
pub fn whole_groups(format: u32, d: usize) -> bool
    ensures { result ≡ whole_groups_of format d }
{
    match Format::try_from(format) {
        Ok(Format::F32) => true,
        Ok(Format::Bf16) => true,
        Ok(Format::Int8) => true,
        Ok(Format::Int4) => d % 32 == 0,
        Err(_) => true,
    }
}

// Whether a shape is inside the limits.
pub fn is_within(shape: Shape) -> bool
    ensures { result ≡ within shape }
{
    if !in_limits(shape) {
        return false;
    }
    elements(shape, cell_bytes(shape.format, shape.head_size)) <= 1_073_741_824
}

// Whether the shape is inside the limits and both buffers have exactly the lengths that it needs.
pub fn room_reply(shape: Shape, cells: usize, scales: usize) -> Result<(), Refusal>
    ensures { reply_number result ≡ lowest (room_refusals shape cells scales) }
{
    require(is_within(shape), Refusal::Shape)?;
    let need = totals(shape);
    require(
        (cells == need.cells) & (scales == need.scales),
        Refusal::Room,
    )
}

// The lengths of the buffers that a shape needs; none outside the limits.
pub fn need_of(shape: Shape) -> Need
    ensures { result ≡ need_of shape }
{
    if !is_within(shape) {
        return Need {
            cells: 0,
            scales: 0,
        };
    }
    totals(shape)
}

// The lengths of both buffers.
fn totals(shape: Shape) -> Need
    requires { within shape ≡ true }
    ensures cells { result.cells ≡ cell_total shape }
    ensures scales { result.scales ≡ scale_total shape }
{
    Need {
        cells: elements(shape, cell_bytes(shape.format, shape.head_size)),
        scales: elements(shape, scale_words(shape.format, shape.head_size)),
    }
}

// All elements of a buffer that has `each` for one position and head.
fn elements(shape: Shape, each: usize) -> usize
    requires { (limits shape ≡ true) × (each ≤ 1024) }
    ensures { result ≡ total each shape }
{
    2 * shape.layers as usize * shape.heads as usize * shape.capacity as usize * each
}

// Whether each field is inside its limits.
pub fn in_limits(shape: Shape) -> bool
    ensures { result ≡ limits shape }
{
    is_known(shape.format)
        & ((1..=128).contains(&shape.layers)
            & ((1..=64).contains(&shape.heads)
                & ((1..=256).contains(&shape.head_size)
                    & ((1..=4096).contains(&shape.capacity)
                        & whole_groups(shape.format, shape.head_size as usize)))))
}
