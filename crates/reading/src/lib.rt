// Reads an input into memory that is lent.
#![tactic(auto)]

ghost use Rattle.std.specs.Prelude.{◌≤◌, length, take};
ghost use Rattle.std.specs.Io.KnownBytes.{Consumes};

use std::io::Read;

// Reads until `buf` is full, the input ends or a read fails, and answers how many bytes stand at the front of `buf`.
pub fn read_full<R: Read>(from: &mut R, buf: &mut [u8]) -> usize
    ensures within { result ≤ length buf.new }
    ensures bytes { Consumes (R.remaining from.old) (R.remaining from.new) (take result buf.new) }
{
    let mut done = 0;
    while done < buf.len()
        && let Ok(n @ 1..) = from.read(&mut buf[done..])
    {
        done += n;
    }
    done
}
