// What is printed of a run.
use numbers::{codes, scales, words};
use std::io;

// The three lines of a run.
pub(crate) fn run(rt: &impl Print, run: &[u32]) -> io::Result<()> {
    int8(rt, run)?;
    int4(rt, run)?;
    bf16(rt, run)
}

fn int8(rt: &impl Print, run: &[u32]) -> io::Result<()> {
    let scale = scales::compute_int8_scale(run);
    let code = |x: u32| codes::quantize_i8(x, scale);
    rt.write_all(b"int8 scale")?;
    field(rt, words::f32_to_word(scale), 8)?;
    rt.write_all(b" codes")?;
    fields(rt, run, 2, |x| u32::from(code(x)))?;
    rt.write_all(b" reads")?;
    fields(rt, run, 8, |x| {
        words::f32_to_word(codes::dequantize_i8(code(x), scale))
    })?;
    rt.write_all(b"\n")
}

fn int4(rt: &impl Print, run: &[u32]) -> io::Result<()> {
    let Some(group) = run.get(..32) else {
        return rt.write_all(b"int4 no 7\n");
    };
    let scale = scales::compute_int4_scale(group);
    rt.write_all(b"int4 scale")?;
    field(rt, words::f32_to_word(scale), 8)?;
    packed(rt, group, scale)
}

// The bytes of a group, and what they read as.
fn packed(rt: &impl Print, group: &[u32], scale: f32) -> io::Result<()> {
    let mut bytes = [0u8; 16];
    let mut back = [0u32; 32];
    // Both have a group's lengths, so neither is refused.
    let _ = groups::pack_i4_group(group, scale, &mut bytes);
    let _ = groups::unpack_i4_group(&bytes, scale, &mut back);
    rt.write_all(b" bytes")?;
    fields(rt, &bytes, 2, |b| u32::from(b))?;
    rt.write_all(b" reads")?;
    fields(rt, &back, 8, |x| x)?;
    rt.write_all(b"\n")
}

fn bf16(rt: &impl Print, run: &[u32]) -> io::Result<()> {
    rt.write_all(b"bf16 halves")?;
    fields(rt, run, 4, |x| u32::from(words::f32_to_bf16(x)))?;
    rt.write_all(b" reads")?;
    fields(rt, run, 8, |x| words::bf16_to_f32(words::f32_to_bf16(x)))?;
    rt.write_all(b"\n")
}

// What is shown of each number.
fn fields<T: Copy, F: Fn(T) -> u32>(
    rt: &impl Print,
    numbers: &[T],
    width: usize,
    shown: F,
) -> io::Result<()>
    requires { F.IsAlwaysCallable shown }
{
    for x in numbers {
        field(rt, shown(*x), width)?;
    }
    Ok(())
}

// A space and a number in hex.
fn field(rt: &impl Print, n: u32, width: usize) -> io::Result<()> {
    print!(rt; " {n:0width$x}")
}
