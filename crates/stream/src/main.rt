// Reads one track of any permitted length from standard input, in the pieces that the reads bring, and prints its verdict: the accepted line, the
// first boundary and the last, one a line; or the refused line.
#![tactic(auto)]

ghost use Rattle.std.specs.Prelude.{◌≡◌, []};
ghost use Rattle.lines.specs.Lines.{answer_lines};
ghost use Rattle.pieces.specs.Form.{memory, resume};

use framing::BYTE_LIMIT;
use lines::ANSWER_ROOM;
use pieces::state::NUMBERS;
use pieces::{GATHER_LIMIT, HEAD};
use std::io;
use std::io::Read;

// The bytes that a read may bring.
const READ_ROOM: usize = 65536;

// The memory that a track in pieces is lent.
#[derive(Drop)]
struct Lent {
    numbers: [u64; NUMBERS],
    head: [u8; HEAD],
    kept: [u8; GATHER_LIMIT],
}

// Feeds the input, a piece a read, to its end or over the byte limit, from where the track is refused. An error says why it can't be read.
fn feed_all(stdin: &mut impl Read, lent: &mut Lent) -> io::Result<()> {
    let mut piece = [0u8; READ_ROOM];
    let mut fed = 0;
    // No `for`, no plainer: a read brings as many bytes as it likes, and nothing is counted.
    while fed <= BYTE_LIMIT {
        let n = stdin.read(&mut piece)?;
        if n == 0 {
            break;
        }
        pieces::feed(
            &mut lent.numbers,
            &mut lent.head,
            &mut lent.kept,
            &piece[..n],
        );
        fed += n;
    }
    Ok(())
}

// Writes a text to standard output: nothing but the lines of what is answered after the lent memory. Says why where it can't, but of a reader
// that has left nothing. Not one function with intake's `show`: their `requires` say what each prints, and must-fail edits speak of them.
fn show_lines(rt: &(impl Print + Eprint), lent: &Lent, text: &[u8])
    requires { text.now ≡ answer_lines (resume (memory lent.now.numbers lent.now.head lent.now.kept) []) }
{
    if let Err(e) = rt.write_all(text) {
        told::say_unwritten(rt, e);
    }
}

// Prints the lines of the answer after the lent memory.
fn print_lines(rt: &(impl Print + Eprint), lent: &Lent) {
    let mut text = [0u8; ANSWER_ROOM];
    let a = pieces::finish(&lent.numbers, &lent.head, &lent.kept);
    let n = lines::answer_lines(a, &mut text);
    show_lines(rt, lent, &text[..n]);
}

// Feeds the input and prints the answer to it.
fn main(rt: HostRuntime) {
    let mut lent = Lent {
        numbers: [0; NUMBERS],
        head: [0; HEAD],
        kept: [0; GATHER_LIMIT],
    };
    pieces::start(&mut lent.numbers);
    match feed_all(&mut rt.stdin(), &mut lent) {
        Ok(()) => print_lines(&rt, &lent),
        Err(e) => {
            let _ = eprintln!(rt; "standard input: {e}");
        }
    }
}
