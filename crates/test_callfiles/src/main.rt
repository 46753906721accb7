// Plays each call file that a line of standard input names, as kvcalls does, then tells where it was left and what the
// last store reports.
#![tactic(auto)]

use replay::{Played, play, report_line};
use std::fs::File;
use std::io;
use std::rt::Files;

fn main(rt: HostRuntime) -> io::Result<()> {
    let mut space = [0u8; 65_536];
    let n = reading::read_full(&mut rt.reader(), &mut space);
    play_named(&rt, &space[..n])
}

// One name after the other.
fn play_named(rt: &(impl Files + Print), names: &[u8]) -> io::Result<()> {
    let mut rest = names;
    while let Some((name, after)) = test_lines::first_line(rest) {
        play_file(rt, name)?;
        rest = after;
    }
    Ok(())
}

fn play_file(rt: &(impl Files + Print), name: &[u8]) -> io::Result<()> {
    rt.write_all(name)?;
    rt.write_all(b"\n")?;
    let Some(mut file) = open(rt, name) else {
        return rt.write_all(b"missing\n");
    };
    let mut space = [0u8; 65_536];
    let n = reading::read_full(&mut file, &mut space);
    start(rt, &space[..n])
}

// A name that is no text is no file's.
fn open<R: Files>(rt: &R, name: &[u8]) -> Option<R::File> {
    File::open(rt, str::from_utf8(name).ok()?).ok()
}

#[tactic(auto, using(printing::proofs::LaidLaws::laid_in))]
fn start(rt: &impl Print, file: &[u8]) -> io::Result<()> {
    let mut out = [0u8; 4_194_304];
    let played = play(file, &mut out);
    let n = played.count;
    rt.write_all(&out[..n])?;
    if file.len() <= 16_384 {
        tell(rt, played)?;
    }
    Ok(())
}

// Where the file was left, and a report of its store.
fn tell(rt: &impl Print, played: Played) -> io::Result<()> {
    let place = played.place;
    print!(rt; "replay {place} ")?;
    let mut out = [0u8; 2048];
    let n = report_line(&played.after, &mut out, 0);
    rt.write_all(&out[..n])
}
