// Codes runs of numbers and reads them back. Each line of standard input is a run of up to 64 words in hex; for each
// run three lines tell its INT8 codes, its first INT4 group and its BF16 patterns, and what each reads as.
#![tactic(auto)]

mod input;
mod show;

use std::io;

fn main(rt: HostRuntime) -> io::Result<()> {
    let mut space = [0u8; 65_536];
    let n = reading::read_full(&mut rt.reader(), &mut space);
    play(&rt, &space[..n])
}

// One run after the other, up to the end or to the first line that is no run.
fn play(rt: &impl Print, text: &[u8]) -> io::Result<()> {
    let mut rest = text;
    while let Some(line) = rest.split_inclusive(|b| *b == b'\n').next() {
        let Some(run) = input::run_of(line) else {
            let at = text.len() - rest.len();
            return println!(rt; "bad at {at}");
        };
        show::run(rt, run.words())?;
        rest = &rest[line.len()..];
    }
    Ok(())
}
