// Groups: 32 numbers to and from 16 bytes, number i beside number i + 16. Numbers come and go as words of 32 bits.
#![tactic(auto)]

ghost use Rattle.std.specs.Prelude.{◌≡◌, ◌++◌, ◌≤◌, length, drop};
ghost use Rattle.replies.specs.Reply.{reply_number};
ghost use Rattle.groups.specs.Group.{packed, half, unpacked, holds, group_reply, pack_into, unpack_into};

use numbers::codes::{dequantize_i4, quantize_i4};
use numbers::words::f32_to_word;
use replies::{Refusal, require};

// Codes 32 numbers into the first 16 bytes. The Rust's `pack_i4_group`.
pub fn pack_i4_group(src: &[u32], scale: f32, dst: &mut [u8]) -> Result<(), Refusal>
    ensures reply { reply_number result ≡ group_reply src.now dst.old }
    ensures bytes { dst.new ≡ pack_into src.now scale dst.old }
{
    require(has_group(src.len(), dst.len()), Refusal::Size)?;
    pack(src, scale, dst);
    Ok(())
}

// Reads 32 numbers out of the first 16 bytes. The Rust's `unpack_i4_group`.
pub fn unpack_i4_group(packed: &[u8], scale: f32, dst: &mut [u32]) -> Result<(), Refusal>
    ensures reply { reply_number result ≡ group_reply dst.old packed.now }
    ensures words { dst.new ≡ unpack_into packed.now scale dst.old }
{
    require(has_group(dst.len(), packed.len()), Refusal::Size)?;
    unpack(packed, scale, dst);
    Ok(())
}

// Whether a group's numbers and bytes are there.
fn has_group(numbers: usize, bytes: usize) -> bool
    ensures { result ≡ holds numbers bytes }
{
    32 <= numbers && 16 <= bytes
}

// The 16 bytes of a group.
#[tactic(auto, using(numbers::proofs::CodeLaws::code4_nibble))]
fn pack(src: &[u32], scale: f32, dst: &mut [u8])
    requires { (32 ≤ length src.now) × (16 ≤ length dst.old) }
    ensures { dst.new ≡ packed src.now scale ++ drop 16 dst.old }
{
    for i in 0..16 {
        let low = quantize_i4(src[i], scale);
        let high = quantize_i4(src[i + 16], scale);
        dst[i] = low + 16 * high;
    }
}

// The 32 numbers of a group.
fn unpack(packed: &[u8], scale: f32, dst: &mut [u32])
    requires { (32 ≤ length dst.old) × (16 ≤ length packed.now) }
    ensures { dst.new ≡ unpacked packed.now scale ++ drop 32 dst.old }
{
    unpack_half(packed, 0, scale, &mut dst[..16]);
    unpack_half(packed, 4, scale, &mut dst[16..32]);
}

// The 16 numbers whose codes begin at bit `from` of each byte.
fn unpack_half(packed: &[u8], from: u32, scale: f32, dst: &mut [u32])
    requires { (16 ≤ length packed.now) × (length dst.old ≡ 16) × (from ≤ 4) }
    ensures { dst.new ≡ half from packed.now scale }
{
    for (i, word) in dst.iter_mut().enumerate() {
        let code = (packed[i] >> from) % 16;
        *word = f32_to_word(dequantize_i4(code, scale));
    }
}
