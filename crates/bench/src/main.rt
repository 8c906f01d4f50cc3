// The bench program: a job on standard input, its text on standard output.
#![tactic(auto)]

ghost use Rattle.std.specs.Prelude.{◌<◌, ◌≤◌, length, take, IfOk, MatchResult};
ghost use Rattle.std.specs.Io.KnownBytes.{Consumes, IsAtEnd};

use std::io;
use std::io::{Read, Write};

// A job's most bytes, and one more, by which a longer one is known.
const JOB: usize = 32769;

// No text is longer (`max_text`).
const TEXT: usize = 289654;

// Reads until the buffer is full or the input ends; a read that fails counts as the end. How many bytes now stand at the
// buffer's front: those that the input has lost, and all that it had where no read failed and there is room for more.
// A `while`, no count by hand: how far a read comes is the input's own word.
fn read_full<R: Read>(input: &mut R, buf: &mut [u8]) -> Result<usize, usize>
    ensures within { MatchResult result (λ n. n ≤ length buf.new) (λ n. n ≤ length buf.new) }
    ensures bytes { MatchResult result (λ n. Consumes (R.remaining input.old) (R.remaining input.new) (take n buf.new)) (λ n. Consumes (R.remaining input.old) (R.remaining input.new) (take n buf.new)) }
    ensures end { IfOk result (λ n. n < length buf.new → IsAtEnd (R.remaining input.new)) }
{
    let mut size = 0;
    while size < buf.len() {
        let Ok(more) = input.read(&mut buf[size..]) else {
            return Err(size);
        };
        if more == 0 {
            break;
        }
        size += more;
    }
    Ok(size)
}

fn main(rt: HostRuntime) {
    let mut job = [0u8; JOB];
    let size = match read_full(&mut rt.stdin(), &mut job) {
        Ok(size) | Err(size) => size,
    };
    let mut text = [0u8; TEXT];
    let length = bench_text::bench_text(&job[..size], &mut text);
    match io::writer(&rt).write_all(&text[..length]) {
        Ok(()) | Err(_) => (),
    }
}
