// Reads a set from standard input and prints its verdict: the accepted line and the boundaries one a line, or the
// refused line.
#![tactic(auto)]

ghost use Rattle.std.specs.Prelude.{◌≡◌, ◌<◌, ◌≤◌, length, IfOk};
ghost use Rattle.printed.specs.Printed.{input_limit, printed};

use printed::{INPUT_LIMIT, TEXT_ROOM};
use std::io;
use std::io::Read;

// Reads until the buffer is full or the input ends, however few bytes a read brings; answers how many bytes are now at its start. There is room
// to notice more than a set may have.
fn read_all(stdin: &mut impl Read, buf: &mut [u8]) -> io::Result<usize>
    requires { input_limit < length buf.old }
    ensures { IfOk result (λ n. n ≤ length buf.new) }
{
    let mut done = 0;
    // No `for`, no plainer: a read brings as many bytes as it likes, and nothing is counted.
    while done < buf.len() {
        let n = stdin.read(&mut buf[done..])?;
        if n == 0 {
            break;
        }
        done += n;
    }
    Ok(done)
}

// Writes a text to standard output: nothing but the answer to the input. Says why where it can't, but of a reader
// that has left nothing. Not one function with stream's `show_lines`: their `requires` say what each prints, and must-fail edits speak of them.
fn show(rt: &(impl Print + Eprint), input: &[u8], text: &[u8])
    requires { text.now ≡ printed input.now }
{
    if let Err(e) = rt.write_all(text) {
        told::say_unwritten(rt, e);
    }
}

// Prints the answer to its input.
fn print(rt: &(impl Print + Eprint), input: &[u8]) {
    let mut text = [0u8; TEXT_ROOM];
    let n = printed::answer(input, &mut text);
    show(rt, input, &text[..n]);
}

// Reads the input and prints the answer to it.
fn main(rt: HostRuntime) {
    let mut input = [0u8; INPUT_LIMIT + 1];
    match read_all(&mut rt.stdin(), &mut input) {
        Ok(n) => print(&rt, &input[..n]),
        Err(e) => {
            let _ = eprintln!(rt; "standard input: {e}");
        }
    }
}
