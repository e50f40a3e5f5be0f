// Reads test cases from standard input to its end, and prints a line for each: the job, its verdict, and a sum over the
// table after it. A case: a byte for the job (0 index, 1 track, 2 set), four bytes for the table's room, four bytes for
// the length, and that many bytes. For job 3 it prints what the program `intake` prints for the bytes; the room is for nothing.
// For job 4 it prints what the program `stream` prints for them; the room is the length of the pieces, or 0 for one piece.
// For job 5 it prints nothing: its bytes, and behind them as many empty boxes `free` as the room says, stand before those of
// the next case, so that a slice of many boxes is stored in few bytes.
#![tactic(auto)]

ghost use Rattle.std.specs.Prelude.{◌≡◌, length};
ghost use Rattle.vectors.specs.Tables.{FilledTo, sum_of};

use framing::BOX_LIMIT;
use lines::ANSWER_ROOM;
use numbers::BigEndian;
use pieces::state::NUMBERS;
use pieces::{GATHER_LIMIT, HEAD};
use printed::{INPUT_LIMIT, TEXT_ROOM};
use rules::Verdict;
use std::io::Read;

// What a case asks for: the line of a job, what a program prints, or empty boxes before the next case.
#[derive(Clone, Copy)]
enum Case {
    Index,
    Track,
    // Each byte that names no other job; the line has the byte.
    Set(u8),
    Intake,
    InPieces,
    Boxes,
}

impl From<u8> for Case {
    fn from(byte: u8) -> Case {
        match byte {
            0 => Case::Index,
            1 => Case::Track,
            3 => Case::Intake,
            4 => Case::InPieces,
            5 => Case::Boxes,
            _ => Case::Set(byte),
        }
    }
}

// Fills a table with i * 7 + 1 at each i.
fn fill(t: &mut [u64])
    ensures { FilledTo t.new (length t.old) }
{
    for (i, x) in t.iter_mut().enumerate() {
        *x = i as u64 * 7 + 1;
    }
}

// The sum over a table, h = (h * 31 + x) mod 1000000007 from 0.
#[tactic(auto, using(crate::proofs::Tables::summed), unfolding(crate::specs::Tables::sum_of))]
fn sum_of(t: &[u64]) -> u64
    ensures { result ≡ sum_of (length t.now) t.now }
{
    let mut h = 0;
    for x in t {
        h = (h * 31 + x % 1000000007) % 1000000007;
    }
    h
}

// Prints what the program `intake` prints.
fn print_text(rt: &impl Print, s: &[u8]) {
    let mut text = [0u8; TEXT_ROOM];
    let n = printed::answer(s, &mut text);
    let _ = rt.write_all(&text[..n]);
}

// Prints what the program `stream` prints for a track that comes in pieces of so many bytes, the last one shorter, or in one piece for 0.
fn print_answer(rt: &impl Print, s: &[u8], cut: usize) {
    let mut numbers = [0u64; NUMBERS];
    let mut head = [0u8; HEAD];
    let mut kept = [0u8; GATHER_LIMIT];
    pieces::start(&mut numbers);
    if cut == 0 {
        pieces::feed(&mut numbers, &mut head, &mut kept, s);
    } else {
        for piece in s.chunks(cut) {
            pieces::feed(&mut numbers, &mut head, &mut kept, piece);
        }
    }
    let mut text = [0u8; ANSWER_ROOM];
    let n = lines::answer_lines(pieces::finish(&numbers, &head, &kept), &mut text);
    let _ = rt.write_all(&text[..n]);
}

// Runs a job with a table and prints its line, that begins with the job's number.
fn print_line<F: Fn(&[u8], &mut [u64]) -> Verdict>(
    rt: &impl Print,
    number: u8,
    job: F,
    s: &[u8],
    t: &mut [u64],
)
    requires { F.IsAlwaysCallable job }
{
    fill(t);
    let v = job(s, t);
    let mut line = [0u8; 160];
    let n = lines::case_line(u64::from(number), v, sum_of(t), &mut line);
    let _ = rt.write_all(&line[..n]);
}

// Puts so many empty boxes `free` behind the first n bytes; answers where they end, or nothing where they don't fit.
fn put_boxes(bytes: &mut [u8], n: usize, boxes: usize) -> Option<usize> {
    let (slots, _) = bytes.get_mut(n..)?.as_chunks_mut::<8>();
    for slot in slots.get_mut(..boxes)? {
        *slot = *b"\0\0\0\x08free";
    }
    Some(n + boxes * 8)
}

// Runs a case of so many bytes and prints what it comes to; answers how many bytes are held before those of the next one, or nothing where the
// table has not its room or the boxes don't fit.
fn run_case(
    rt: &impl Print,
    job: Case,
    room: usize,
    bytes: &mut [u8],
    size: usize,
    table: &mut [u64],
) -> Option<usize> {
    let s = bytes.get(..size)?;
    match job {
        Case::Boxes => return put_boxes(bytes, size, room),
        Case::InPieces => print_answer(rt, s, room),
        Case::Intake => {
            table.get(..room)?;
            print_text(rt, s);
        }
        Case::Index => print_line(rt, 0, framing::index_job, s, table.get_mut(..room)?),
        Case::Track => print_line(rt, 1, track::track_job, s, table.get_mut(..room)?),
        Case::Set(byte) => print_line(rt, byte, set::set_job, s, table.get_mut(..room)?),
    }
    Some(0)
}

// Reads a case behind the bytes that are held, and prints what it comes to; answers how many bytes are held before those of the next one, or
// nothing where no case is there, or none that the program can take.
fn next_case(
    rt: &impl Print,
    stdin: &mut impl Read,
    bytes: &mut [u8],
    held: usize,
    table: &mut [u64],
) -> Option<usize> {
    let mut head = [0u8; 9];
    stdin.read_exact(&mut head).ok()?;
    let room = u32::read(&head, 1) as usize;
    let size = u32::read(&head, 5) as usize;
    stdin
        .read_exact(bytes.get_mut(held..)?.get_mut(..size)?)
        .ok()?;
    run_case(rt, Case::from(head[0]), room, bytes, held + size, table)
}

// Runs every case to the end of the input. A proved loop has to end, and nothing says that an input does: the loop has more turns than a run uses up.
fn run_cases(rt: &impl Print, stdin: &mut impl Read, bytes: &mut [u8], table: &mut [u64]) {
    let mut held = 0;
    for _ in 0..u64::MAX {
        let Some(n) = next_case(rt, stdin, bytes, held, table) else {
            return;
        };
        held = n;
    }
}

// The bytes hold what `intake` takes and a byte more, beside as many empty boxes as rule 5 allows; the table holds the index of
// as many boxes.
fn main(rt: HostRuntime) {
    let mut bytes = [0u8; INPUT_LIMIT + 1 + BOX_LIMIT * 8];
    let mut table = [0u64; BOX_LIMIT * 4];
    run_cases(
        &rt,
        &mut rt.stdin(),
        bytes.as_mut_slice(),
        table.as_mut_slice(),
    );
}
