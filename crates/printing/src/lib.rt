// The lines that a call file has printed, as bytes: the paper's section Call file.
#![tactic(auto)]

mod page;

ghost use Rattle.std.specs.Prelude.{◌≡◌, ◌+◌, take, leb};
ghost use Rattle.printing.specs.Text.{answer_text_of, report_text_of, bad_text_of, laid_at};

use page::Page;

// Lays `ok` for 0, and `no N` for any other N, at an offset, and answers the offset after it.
#[tactic(auto, unfolding(crate::specs::Text::laid_at))]
pub fn answer_text(n: u32, out: &mut [u8], at: usize) -> usize
    ensures { record { count = result; out = out.new } ≡ laid_at at (answer_text_of n) out.old }
{
    if !has_line(out.len(), at) {
        return at;
    }
    let mut page = Page { out, at };
    if n == 0 {
        page.put(b"ok\n");
        return page.at;
    }
    page.put_named(b"no ", u64::from(n));
    page.put(b"\n");
    page.at
}

// The same with `seq S bytes M len a b ..`, the lengths being the first `layers`.
#[tactic(auto, unfolding(crate::specs::Text::laid_at))]
pub fn report_text(
    seq: u32,
    bytes: u64,
    lens: &[u32; 128],
    layers: u32,
    out: &mut [u8],
    at: usize,
) -> usize
    ensures { record { count = result; out = out.new } ≡ laid_at at (report_text_of seq bytes (take layers lens.now)) out.old }
{
    if !has_line(out.len(), at) {
        return at;
    }
    let count = (layers as usize).min(lens.len());
    let mut page = Page { out, at };
    page.put_named(b"seq ", u64::from(seq));
    page.put_named(b" bytes ", bytes);
    page.put(b" len");
    page.put_lengths(&lens[..count]);
    page.put(b"\n");
    page.at
}

// The same with `bad at N`.
#[tactic(auto, unfolding(crate::specs::Text::laid_at))]
pub fn bad_text(n: u64, out: &mut [u8], at: usize) -> usize
    ensures { record { count = result; out = out.new } ≡ laid_at at (bad_text_of n) out.old }
{
    if !has_line(out.len(), at) {
        return at;
    }
    let mut page = Page { out, at };
    page.put_named(b"bad at ", n);
    page.put(b"\n");
    page.at
}

// Whether the 2,048 bytes that any line fits in are left from an offset on.
fn has_line(size: usize, at: usize) -> bool
    ensures { result ≡ leb (at + 2048) size }
{
    2048 <= size.saturating_sub(at)
}
