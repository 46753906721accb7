// Decode: one head's numbers at one position, read from cells and scale words, in each format.
#![tactic(auto)]

ghost use Rattle.std.specs.Prelude.{◌≡◌, cond, ◌*◌, eqb, length};
ghost use Rattle.lists.specs.Bytes.{from_little};
ghost use Rattle.rows.specs.Row.{f32_numbers, bf16_numbers, int8_numbers, int4_numbers};
ghost use Rattle.shapes.specs.Buffers.{buffers};
ghost use Rattle.replies.specs.Tried.{tells};
ghost use Rattle.decode.specs.Decode.{get_row_of};

use groups::unpack_i4_group;
use numbers::codes::dequantize_i8;
use numbers::words::{bf16_to_f32, f32_to_word, word_to_f32};
use rows::rows_fit;
use shapes::Format;

// Reads as many numbers as `out` has places, where what is lent is such a row, and answers whether it is.
pub fn get_row(format: u32, cells: &[u8], scales: &[u32], out: &mut [u32]) -> bool
    ensures { tells result out.new ≡ get_row_of format (buffers cells.now scales.now) out.old }
{
    if !rows_fit(format, out.len(), 1, cells.len(), scales.len()) {
        return false;
    }
    match Format::try_from(format) {
        Ok(Format::F32) => get_f32(cells, out),
        Ok(Format::Bf16) => get_bf16(cells, out),
        Ok(Format::Int8) => get_int8(cells, scales, out),
        Ok(Format::Int4) => get_int4(cells, scales, out),
        Err(_) => {}
    }
    true
}

// The word of four bytes, least significant first, and 0 where there are not four.
pub fn word_of(bytes: &[u8]) -> u32
    ensures { result ≡ cond (eqb (length bytes.now) 4) (from_little bytes.now) 0 }
{
    match bytes.as_array() {
        Some(word) => u32::from_le_bytes(*word),
        None => 0,
    }
}

fn get_f32(cells: &[u8], out: &mut [u32])
    requires { length cells.now ≡ length out.old * 4 }
    ensures { out.new ≡ f32_numbers (length out.old) cells.now }
{
    let (words, _) = cells.as_chunks();
    for (d, word) in words.iter().enumerate() {
        out[d] = u32::from_le_bytes(*word);
    }
}

fn get_bf16(cells: &[u8], out: &mut [u32])
    requires { length cells.now ≡ length out.old * 2 }
    ensures { out.new ≡ bf16_numbers (length out.old) cells.now }
{
    let (halves, _) = cells.as_chunks();
    for (d, half) in halves.iter().enumerate() {
        out[d] = bf16_to_f32(u16::from_le_bytes(*half));
    }
}

fn get_int8(cells: &[u8], scales: &[u32], out: &mut [u32])
    requires { (length cells.now ≡ length out.old) × (length scales.now ≡ 1) }
    ensures { out.new ≡ int8_numbers (length out.old) cells.now scales.now }
{
    let scale = word_to_f32(scales[0]);
    for (d, code) in cells.iter().enumerate() {
        out[d] = f32_to_word(dequantize_i8(*code, scale));
    }
}

fn get_int4(cells: &[u8], scales: &[u32], out: &mut [u32])
    requires { (length out.old ≡ length scales.now * 32) × (length cells.now ≡ length scales.now * 16) }
    ensures { out.new ≡ int4_numbers (length out.old) cells.now scales.now }
{
    for (g, scale) in scales.iter().enumerate() {
        let a = g * 32;
        let c = g * 16;
        let _ = unpack_i4_group(&cells[c..c + 16], word_to_f32(*scale), &mut out[a..a + 32]);
    }
}
