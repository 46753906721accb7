// The scale of a run of words.
ghost use Rattle.std.specs.Prelude.{◌≡◌, ◌/◌};
ghost use Rattle.numbers.specs.Scale.{largest, scale_of};

use crate::words::word_to_f32;

// The largest magnitude of a run, NaN skipped; 0.0 for an empty one.
pub fn largest_magnitude(run: &[u32]) -> f32
    ensures { result ≡ largest run.now }
{
    let mut most = 0.0f32;
    for w in run {
        let x = word_to_f32(*w % 0x8000_0000);
        let larger = most < x;
        if larger {
            most = x;
        }
    }
    most
}

// The largest magnitude divided by `divisor`; 1.0 where it is 0.
fn scale_by(run: &[u32], divisor: u16) -> f32
    ensures { result ≡ scale_of divisor run.now }
{
    let most = largest_magnitude(run);
    if most == 0.0 {
        1.0
    } else {
        most / (divisor as f32)
    }
}

// The scale of an INT8 head. The Rust's `compute_int8_scale`.
pub fn compute_int8_scale(run: &[u32]) -> f32
    ensures { result ≡ scale_of 127 run.now }
{
    scale_by(run, 127)
}

// The scale of an INT4 group. The Rust's `compute_int4_scale`.
pub fn compute_int4_scale(run: &[u32]) -> f32
    ensures { result ≡ scale_of 7 run.now }
{
    scale_by(run, 7)
}

// How many groups of 32 numbers a head has. The Rust's `int4_num_groups`.
pub fn int4_num_groups(head_dim: usize) -> usize
    ensures { result ≡ head_dim / 32 }
{
    head_dim / 32
}
