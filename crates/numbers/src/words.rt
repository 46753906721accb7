// Conversions between words, floats and BF16, and nothing else.
ghost use Rattle.std.specs.Prelude.{◌≡◌};
ghost use Rattle.numbers.specs.Word.{float, word, bf16, from_bf16};

// The float that a word stands for.
pub fn word_to_f32(w: u32) -> f32
    ensures { result ≡ float w }
{
    // `from_bits` is not defined at a NaN pattern.
    if 0x7F80_0000 < w % 0x8000_0000 {
        f32::NAN
    } else {
        f32::from_bits(w)
    }
}

// The word that stands for a float; 7FC00000 for a NaN.
pub fn f32_to_word(x: f32) -> u32
    ensures { result ≡ word x }
{
    if x.is_nan() { 0x7FC0_0000 } else { x.to_bits() }
}

// The BF16 pattern nearest to a word's. The Rust's `f32_to_bf16`.
pub fn f32_to_bf16(w: u32) -> u16
    ensures { result ≡ bf16 w }
{
    let odd = w / 0x1_0000 % 2;
    let sum = w.wrapping_add(0x7FFF + odd);
    (sum / 0x1_0000) as u16
}

// The word that a BF16 pattern stands for. The Rust's `bf16_to_f32`.
pub fn bf16_to_f32(half: u16) -> u32
    ensures { result ≡ from_bf16 half }
{
    half as u32 * 0x1_0000
}
