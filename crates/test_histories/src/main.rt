// Plays calls of a store on a boundary of words, floats and bytes, and tells what each answers and leaves. A line of
// standard input is a call: words in hex, the first of which is its kind.
#![tactic(auto)]

mod calls;
mod fresh;
mod history;
mod show;
mod stores;

use calls::{Call, Words};
use history::History;
use std::io;

fn main(rt: HostRuntime) -> io::Result<()> {
    let mut space = [0u8; 262_144];
    let n = reading::read_full(&mut rt.reader(), &mut space);
    play(&rt, &space[..n])
}

// One call after the other.
fn play(rt: &impl Print, text: &[u8]) -> io::Result<()> {
    let mut history = History::new();
    let mut rest = text;
    while let Some((line, after)) = test_lines::first_line(rest) {
        history.play(rt, Call::from(Words::of(line)))?;
        rest = after;
    }
    Ok(())
}
