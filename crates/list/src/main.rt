// Reads a record from standard input, and writes its listing, or the one line of its refusal, to standard output.
#![tactic(auto)]

ghost use Rattle.std.specs.Prelude.{◌≡◌, ◌≤◌, length, IfOk};

use std::io;
use std::io::{Read, Write};

// Room for one byte more than the largest record: a longer input is refused in the same way as one of that length.
const RECORD: usize = 65537;

// Room for the longest listing.
const SHEET: usize = 524288;

// Kept: an array, where a Vec would rest on three axioms more and could find no memory.
fn zeros<const N: usize>() -> [u8; N]
    ensures { N ≡ length result }
{
    [0; N]
}

// Reads until `buffer` is full or the input ends, and returns how many bytes it put there.
fn read_full(rt: &HostRuntime, buffer: &mut [u8]) -> io::Result<usize>
    ensures { IfOk result (λ n. n ≤ length buffer.new) }
{
    let mut reader = rt.stdin();
    let mut done = 0;
    while done < buffer.len() {
        match reader.read(&mut buffer[done..])? {
            0 => break,
            n => done += n,
        }
    }
    Ok(done)
}

fn main(rt: HostRuntime) -> io::Result<()> {
    let mut input = zeros::<RECORD>();
    let got = read_full(&rt, &mut input)?;
    let mut out = zeros::<SHEET>();
    let n = listing::list(&input[..got], &mut out);
    io::writer(&rt).write_all(&out[..n])
}
