// Encode: one head's numbers at one position, written as cells and scale words, in each format.
#![tactic(auto)]

ghost use Rattle.std.specs.Prelude.{◌≡◌, ◌*◌, ◌≤◌, length};
ghost use Rattle.numbers.specs.Word.{word};
ghost use Rattle.numbers.specs.Scale.{scale_of};
ghost use Rattle.groups.specs.Group.{packed};
ghost use Rattle.rows.specs.Row.{f32_cells, bf16_cells, int8_cells, int8_scales, int4_cells, int4_scales};
ghost use Rattle.shapes.specs.Buffers.{buffers};
ghost use Rattle.replies.specs.Tried.{tells};
ghost use Rattle.encode.specs.Encode.{put_row_of};

use groups::pack_i4_group;
use numbers::codes::quantize_i8;
use numbers::scales::{compute_int4_scale, compute_int8_scale};
use numbers::words::{f32_to_bf16, f32_to_word};
use rows::rows_fit;
use shapes::Format;

// Writes the cells and the scale words of a run, where what is lent is such a row, and answers whether it is.
pub fn put_row(format: u32, run: &[u32], cells: &mut [u8], scales: &mut [u32]) -> bool
    ensures { tells result (buffers cells.new scales.new)
        ≡ put_row_of format run.now (buffers cells.old scales.old) }
{
    if !rows_fit(format, run.len(), 1, cells.len(), scales.len()) {
        return false;
    }
    match Format::try_from(format) {
        Ok(Format::F32) => put_f32(run, cells),
        Ok(Format::Bf16) => put_bf16(run, cells),
        Ok(Format::Int8) => put_int8(run, cells, scales),
        Ok(Format::Int4) => put_int4(run, cells, scales),
        Err(_) => {}
    }
    true
}

// The words go through an array, which overlaps with nothing, so that the back end makes one copy of memory of it.
fn put_f32(run: &[u32], cells: &mut [u8])
    requires { (length run.now ≤ 256) × (length cells.old ≡ length run.now * 4) }
    ensures { cells.new ≡ f32_cells run.now }
{
    let n = run.len();
    let mut words = [0; 256];
    words[..n].copy_from_slice(run);
    put_words(&words[..n], cells);
}

fn put_words(words: &[u32], cells: &mut [u8])
    requires { length cells.old ≡ length words.now * 4 }
    ensures { cells.new ≡ f32_cells words.now }
{
    for (d, w) in words.iter().enumerate() {
        let a = d * 4;
        cells[a..a + 4].copy_from_slice(&w.to_le_bytes());
    }
}

fn put_bf16(run: &[u32], cells: &mut [u8])
    requires { length cells.old ≡ length run.now * 2 }
    ensures { cells.new ≡ bf16_cells run.now }
{
    for (d, w) in run.iter().enumerate() {
        let a = d * 2;
        cells[a..a + 2].copy_from_slice(&f32_to_bf16(*w).to_le_bytes());
    }
}

fn put_int8(run: &[u32], cells: &mut [u8], scales: &mut [u32])
    requires { (length cells.old ≡ length run.now) × (length scales.old ≡ 1) }
    ensures cells { cells.new ≡ int8_cells run.now }
    ensures scales { scales.new ≡ int8_scales run.now }
{
    let scale = compute_int8_scale(run);
    scales[0] = f32_to_word(scale);
    for (d, w) in run.iter().enumerate() {
        cells[d] = quantize_i8(*w, scale);
    }
}

fn put_int4(run: &[u32], cells: &mut [u8], scales: &mut [u32])
    requires { (length run.now ≡ length scales.old * 32) × (length cells.old ≡ length scales.old * 16) }
    ensures cells { cells.new ≡ int4_cells run.now }
    ensures scales { scales.new ≡ int4_scales run.now }
{
    for (g, scale) in scales.iter_mut().enumerate() {
        let a = g * 32;
        let c = g * 16;
        *scale = put_group(&run[a..a + 32], &mut cells[c..c + 16]);
    }
}

// Codes a group under its own scale, and answers the scale's word.
fn put_group(run: &[u32], cells: &mut [u8]) -> u32
    requires { (length run.now ≡ 32) × (length cells.old ≡ 16) }
    ensures scale { result ≡ word (scale_of 7 run.now) }
    ensures cells { cells.new ≡ packed run.now (scale_of 7 run.now) }
{
    let scale = compute_int4_scale(run);
    let _ = pack_i4_group(run, scale, cells);
    f32_to_word(scale)
}
