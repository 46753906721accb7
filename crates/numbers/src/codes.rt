// The code of one number under a scale, and what a code reads as.
ghost use Rattle.std.specs.Prelude.{◌≡◌, ◌≤◌, if◌then◌else◌};
ghost use Rattle.std.specs.Float.{binary32};
ghost use Rattle.std.specs.Float.Ieee.{div, lt};
ghost use Rattle.numbers.specs.Word.{float};
ghost use Rattle.numbers.specs.Code.{clamped, above, code8, code4, read8, less8, read4};

use crate::words::word_to_f32;

// `a` where it is below `b`, else `b`.
fn smaller(a: f32, b: f32) -> f32
    ensures { result ≡ (if lt a b then a else b) }
{
    if a < b { a } else { b }
}

// A magnitude to the nearest whole number, halves upwards, and no more than `most`. `bits` is its pattern.
fn nearest_whole(bits: u32, most: u16) -> u32
    requires { (bits ≤ 2139095040) × (most ≤ 128) }
    ensures { result ≡ above 0 (clamped 0 most (float bits)) }
{
    let x = smaller(f32::from_bits(bits), most as f32);
    // Beside 2^23 a float has no place for a fraction: the sum is rounded to a whole number, a half to the even one.
    let n = (x + 8_388_608.0).to_bits() % 256;
    if x == n as f32 + 0.5 { n + 1 } else { n }
}

// What `zero` becomes when the number's quotient by the scale, rounded and clamped to -low .. high, is added.
fn quantize(x: u32, scale: f32, low: u16, high: u16, zero: u32) -> u32
    requires { (low ≤ 128) × (high ≤ low) × (low ≤ zero) × (zero ≤ 256) }
    ensures { result ≡ above zero (clamped low high (div binary32 (float x) scale)) }
{
    let q = word_to_f32(x) / scale;
    // A NaN is below nothing, so this is a number, and what it counts for a NaN is dropped at the end.
    let bits = smaller(q, high as f32).to_bits();
    let positive = bits < 0x8000_0000;
    // The end for either sign: what is positive is at most `high` already.
    let n = nearest_whole(bits % 0x8000_0000, low);
    let m = if q.is_nan() { 0 } else { n };
    if positive { zero + m } else { zero - m }
}

// The INT8 code of a number. The Rust's `quantize_i8`.
pub fn quantize_i8(x: u32, scale: f32) -> u8
    ensures { result ≡ code8 x scale }
{
    (quantize(x, scale, 127, 127, 256) % 256) as u8
}

// The INT4 code of a number. The Rust's `quantize_i4`.
pub fn quantize_i4(x: u32, scale: f32) -> u8
    ensures { result ≡ code4 x scale }
{
    (quantize(x, scale, 8, 7, 8) % 256) as u8
}

// The number that a stored INT8 byte reads as.
pub fn dequantize_i8(code: u8, scale: f32) -> f32
    ensures { result ≡ read8 code scale }
{
    code.cast_signed() as f32 * scale
}

// The number that a stored INT4 code stands for under the scale 1.0.
pub fn less_8(code: u8) -> f32
    ensures { result ≡ less8 code }
{
    code as f32 - 8.0
}

// The number that a stored INT4 code reads as.
pub fn dequantize_i4(code: u8, scale: f32) -> f32
    ensures { result ≡ read4 code scale }
{
    less_8(code) * scale
}
