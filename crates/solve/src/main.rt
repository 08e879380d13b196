// The solving program: reads one job sheet on standard input and prints its result sheet, or the line of its refusal.
#![tactic(auto)]

ghost use Rattle.std.specs.Prelude.{◌≤◌, ◌<◌, IfOk, length, take};
ghost use Rattle.std.specs.Io.KnownBytes.{Consumes, IsAtEnd};

use std::io::{self, Read, Write};

// Reads until the buffer is full or the input ends: how many bytes it then holds. Where the input says which bytes it
// has left, they are the first of these, and all of them unless the buffer is full.
fn read_full<R: Read>(input: &mut R, buffer: &mut [u8]) -> io::Result<usize>
    ensures bound { IfOk result (λ n. n ≤ length buffer.new) }
    ensures bytes { IfOk result (λ n. Consumes (R.remaining input.old) (R.remaining input.new) (take n buffer.new)) }
    ensures whole { IfOk result (λ n. n < length buffer.new → IsAtEnd (R.remaining input.new)) }
{
    // std's ways to read on fill a heap's Vec, fail at an early end, or do not tell which bytes a fixed buffer gets.
    let mut length = 0;
    while length < buffer.len() {
        let more = input.read(&mut buffer[length..])?;
        if more == 0 {
            break;
        }
        length += more;
    }
    Ok(length)
}

fn main(rt: HostRuntime) -> io::Result<()> {
    // Room for one byte more than a sheet may have.
    let mut sheet = [0; 65537];
    let length = read_full(&mut rt.reader(), &mut sheet)?;
    let mut text = [0; 65536];
    let end = reply::reply(&sheet[..length], &mut text);
    io::writer(&rt).write_all(&text[..end])
}
