// The judging program: a file on standard input, a line for each of its tests on standard output.
// 22,528 bytes are enough: a longer file is refused as its first 22,462 bytes are (`enough`).
#![tactic(auto)]

ghost use Rattle.std.specs.Prelude.{List, ℕ, ◌≡◌, ◌≤◌, length, IfOk};
ghost use Rattle.judge_text.specs.Lines.{program_text, text_length};
ghost use Rattle.judge_text.specs.Theorem.{enough, Read};
ghost use Rattle.file_writing.specs.Writing.{Wrote};

use std::io;
use std::io::{Read, Write};

// The buffer's bytes: `enough`, and some more.
const BUFFER_LENGTH: usize = 22528;

// Reads until the buffer is full or the input ends, and answers how many bytes it read.
fn read_input(input: &mut impl Read, buffer: &mut [u8]) -> io::Result<usize>
    ensures { IfOk result (λ n. n ≤ length buffer.new) × (length buffer.new ≡ length buffer.old) }
{
    let mut done: usize = 0;
    while done < buffer.len() {
        match input.read(&mut buffer[done..])? {
            0 => return Ok(done),
            more => done += more,
        }
    }
    Ok(done)
}

// The text of an input of which the first n bytes of `buffer` were read, at the front of `out`, and
// how many bytes that is.
fn render(buffer: &[u8], n: usize, out: &mut [u8]) -> usize
    requires { (enough ≤ length buffer.now) × ((n ≤ length buffer.now) × (text_length ≤ length out.old)) }
    ensures { ((input : List ℕ) → Read input buffer.now n → Wrote out.old 0 (program_text input) out.new result) × (result ≤ text_length) }
{
    judge_text::judge_lines(&buffer[..n], out)
}

// Judges what is read into `buffer`, by way of `out`.
fn judge_input(rt: &HostRuntime, buffer: &mut [u8], out: &mut [u8]) -> io::Result<()>
    requires { (enough ≤ length buffer.old) × (text_length ≤ length out.old) }
{
    match read_input(&mut rt.stdin(), buffer) {
        Ok(n) => {
            let m = render(buffer, n, out);
            rt.stdout().write_all(&out[..m])
        }
        Err(_) => rt
            .stderr()
            .write_all(b"judge: standard input could not be read\n"),
    }
}

fn main(rt: HostRuntime) -> io::Result<()> {
    let mut buffer = [0u8; BUFFER_LENGTH];
    let mut out = [0u8; judge_text::TEXT_LENGTH];
    judge_input(&rt, &mut buffer, &mut out)
}
