// What is printed of a call.
use crate::stores::Store;
use std::io;

// What a call answers, and its count.
pub(crate) fn count(rt: &impl Print, reply: u32, count: u64) -> io::Result<()> {
    println!(rt; "reply {reply} count {count}")
}

// What a call answers, and what it left in its output.
pub(crate) fn output(rt: &impl Print, reply: u32, numbers: &[u32]) -> io::Result<()> {
    print!(rt; "reply {reply} numbers")?;
    hex(rt, numbers, 8)?;
    rt.write_all(b"\n")
}

// The record and both buffers.
pub(crate) fn store(rt: &impl Print, store: &Store) -> io::Result<()> {
    record(rt, &store.record)?;
    rt.write_all(b"cells")?;
    hex(rt, store.cells.lent(), 2)?;
    rt.write_all(b"\nscales")?;
    hex(rt, store.scales.lent(), 8)?;
    rt.write_all(b"\n")
}

// The shape, the sequence number, and the lengths up to the last that is not 0.
fn record(rt: &impl Print, record: &[u32; 134]) -> io::Result<()> {
    let seq = record[5];
    let lens = &record[6..];
    let used = lens
        .iter()
        .rposition(|len| *len != 0)
        .map_or(0, |last| last + 1);
    rt.write_all(b"record")?;
    decimals(rt, &record[..5])?;
    print!(rt; " seq {seq} lens")?;
    decimals(rt, &lens[..used])?;
    rt.write_all(b"\n")
}

fn decimals(rt: &impl Print, words: &[u32]) -> io::Result<()> {
    for n in words {
        decimal(rt, *n)?;
    }
    Ok(())
}

pub(crate) fn decimal(rt: &impl Print, n: u32) -> io::Result<()> {
    print!(rt; " {n}")
}

// A space and a number in hex, for each.
fn hex<T: Copy + Into<u32>>(rt: &impl Print, numbers: &[T], width: usize) -> io::Result<()> {
    for n in numbers {
        let n: u32 = (*n).into();
        print!(rt; " {n:0width$x}")?;
    }
    Ok(())
}
