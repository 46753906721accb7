// Plays the call file on standard input, and prints a line for each record.
#![tactic(auto)]

use std::io;

fn main(rt: HostRuntime) -> io::Result<()> {
    let mut space = [0u8; 65_536];
    let n = reading::read_full(&mut rt.reader(), &mut space);
    start(&rt, &space[..n])
}

#[tactic(auto, using(printing::proofs::LaidLaws::laid_in))]
fn start(rt: &impl Print, file: &[u8]) -> io::Result<()> {
    let mut out = [0u8; 4_194_304];
    let played = replay::play(file, &mut out);
    let n = played.count;
    rt.write_all(&out[..n])
}
