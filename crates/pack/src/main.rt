// Writes a bundle of the files that its arguments name to standard output: for each a record of the mark, the length and
// the bytes. Every file is read to its end and counted before a byte is written. So where a name is missing or one too
// many, a file can't be read or the bundle would be too long, there is a line on standard error and nothing on standard
// output. A file that has grown since it was counted gives the bytes that were counted. At one that has become shorter the
// bundle ends inside its record, which a check refuses with 24, and there is a line on standard error.
#![tactic(auto)]

ghost use Rattle.std.specs.Prelude.{◌+◌, ◌≤◌, ◌<◌, ◌≡◌, length, take, slice_index, All, IsSome, IfSome, IfOk, OnSome};
ghost use Rattle.rules.specs.Limits.{byte_limit};
ghost use Rattle.bundle.specs.Front.{front_of, bundle_length};
ghost use Rattle.pack.specs.Sizes.{sizes};

use std::env::{Env, FillError};
use std::io::{Read, Seek};
use std::rt::Files;
use std::{fmt, fs, io, str};

// The bytes that a bundle may have.
const LIMIT: u64 = 1073741824;

// A file made ready: open, at its start, and its bytes.
#[derive(Drop)]
struct Source {
    file: fs::File,
    size: u32,
}

// Why a file can't be made ready: it can't be read, or the bundle would be too long.
#[derive(Clone, Copy)]
enum Unready {
    Unread(io::Error),
    TooLong,
}

impl From<io::Error> for Unready {
    fn from(e: io::Error) -> Unready {
        Unready::Unread(e)
    }
}

impl fmt::Display for Unready {
    fn fmt<W: fmt::Write>(&self, f: &mut fmt::Formatter<W>) -> fmt::Result {
        match self {
            Unready::Unread(e) => write!(f, "{e}"),
            Unready::TooLong => write!(f, "the bundle would be over 1073741824 bytes"),
        }
    }
}

// Why the bundle can't be written on: a file can't be read again, has no bytes left, or is not open; or standard output can't be written.
#[derive(Clone, Copy)]
enum Unwritten {
    Reread(io::Error),
    Shorter,
    NotOpen,
    Output(io::Error),
}

// Counts the bytes of a file that begins at a place of the bundle.
fn count_bytes(file: &mut impl Read, from: u64, buf: &mut [u8]) -> Result<u64, Unready>
    requires { from ≤ byte_limit + 6 }
    ensures { IfOk result (λ n. from + n ≤ byte_limit) }
{
    let mut end = from;
    // No `for`, no plainer: a read brings as many bytes as it likes, and nothing is counted.
    while end <= LIMIT {
        let n = file.read(buf)?;
        if n == 0 {
            return Ok(end - from);
        }
        end += n as u64;
    }
    Err(Unready::TooLong)
}

// Opens the file of that name, counts its bytes and goes back to its start.
fn ready(
    rt: &impl Files<File = fs::File>,
    path: &str,
    from: u64,
    buf: &mut [u8],
) -> Result<Source, Unready>
    requires { from ≤ byte_limit + 6 }
    ensures { IfOk result (λ r. from + r.size ≤ byte_limit) }
{
    let mut file = fs::File::open(rt, path)?;
    let size = count_bytes(&mut file, from, buf)? as u32;
    file.rewind()?;
    Ok(Source { file, size })
}

// Makes the file that argument i names ready for a place of the bundle; says why where it can't.
fn prepare(
    rt: &(impl Env + Files<File = fs::File> + Eprint),
    i: usize,
    from: u64,
    buf: &mut [u8],
) -> Option<Source>
    requires { from ≤ byte_limit + 6 }
    ensures { IfSome result (λ r. from + r.size ≤ byte_limit) }
{
    let mut name = [0u8; 4096];
    let Ok(n) = rt.arg(i, &mut name) else {
        let _ = eprintln!(rt; "file name {i}: it is not there or over 4096 bytes long");
        return None;
    };
    let Ok(path) = str::from_utf8(&name[..n]) else {
        let _ = eprintln!(rt; "file name {i}: it is not UTF-8 text");
        return None;
    };
    match ready(rt, path, from, buf) {
        Ok(r) => Some(r),
        Err(e) => {
            let _ = eprintln!(rt; "{path}: {e}");
            None
        }
    }
}

// Makes the files of the arguments from 1 on ready, one for each slot; says why where it can't.
fn open_all(
    rt: &(impl Env + Files<File = fs::File> + Eprint),
    slots: &mut [Option<Source>],
    buf: &mut [u8],
) -> Option<()>
    ensures fit { OnSome result (bundle_length (sizes slots.new) ≤ byte_limit) }
    ensures open { OnSome result (All IsSome slots.new) }
{
    let mut end = 0;
    for (k, slot) in slots.iter_mut().enumerate() {
        let r = prepare(rt, k + 1, end + 6, buf)?;
        end += 6 + u64::from(r.size);
        *slot = Some(r);
    }
    Some(())
}

// Reads once and writes what came, at most so many bytes; answers how many, never 0.
fn pass(rt: &impl Print, mut file: &fs::File, most: u64, buf: &mut [u8]) -> Result<u64, Unwritten>
    ensures { IfOk result (λ n. (0 < n) × (n ≤ most)) }
{
    let room = most.min(buf.len() as u64) as usize;
    let n = file.read(&mut buf[..room]).map_err(Unwritten::Reread)?;
    if n == 0 {
        return Err(Unwritten::Shorter);
    }
    rt.write_all(&buf[..n]).map_err(Unwritten::Output)?;
    Ok(n as u64)
}

// Copies so many bytes of a file to standard output, from a place of the bundle on; answers where that ends.
fn copy(
    rt: &impl Print,
    file: &fs::File,
    at: u64,
    size: u32,
    buf: &mut [u8],
) -> Result<u64, Unwritten>
    requires { at ≤ byte_limit + 6 }
    ensures { IfOk result (λ end. end ≡ at + size) }
{
    let end = at + u64::from(size);
    let mut here = at;
    // No `for`, no plainer: a pass writes as many bytes as it likes.
    while here < end {
        here += pass(rt, file, end - here, buf)?;
    }
    Ok(here)
}

// Writes six bytes at a place of the bundle, which have to be those in front of file k; answers where they end.
fn put_front(
    rt: &impl Print,
    six: &[u8; 6],
    slots: &[Option<Source>],
    k: usize,
    at: u64,
) -> Result<u64, Unwritten>
    requires { (six.now ≡ front_of (slice_index (sizes slots.now) k)) × (at ≡ bundle_length (take k (sizes slots.now))) × (at ≤ byte_limit) }
    ensures { IfOk result (λ end. end ≡ at + 6) }
{
    rt.write_all(six).map_err(Unwritten::Output)?;
    Ok(at + 6)
}

// Writes the records of the files, up to one that can't be written whole; answers where they end. Behind `open_all` each is open.
fn write_records(
    rt: &impl Print,
    slots: &[Option<Source>],
    buf: &mut [u8],
) -> Result<u64, Unwritten>
    requires { bundle_length (sizes slots.now) ≤ byte_limit }
    ensures { IfOk result (λ end. end ≡ bundle_length (sizes slots.now)) }
{
    let mut at = 0;
    for (k, slot) in slots.iter().enumerate() {
        let Some(r) = slot else {
            return Err(Unwritten::NotOpen);
        };
        let from = put_front(rt, &bundle::front(r.size), slots, k, at)?;
        at = copy(rt, &r.file, from, r.size, buf)?;
    }
    Ok(at)
}

// Says why the bundle can't be written on; of a reader that has left nothing.
fn say_why(rt: &impl Eprint, why: Unwritten) {
    let _ = match why {
        Unwritten::Reread(e) => eprintln!(rt; "a file, read again: {e}"),
        Unwritten::Shorter => eprintln!(rt;
            "a file became shorter: the bundle ends inside its record"
        ),
        Unwritten::NotOpen => eprintln!(rt; "a file, read again: it is not open"),
        Unwritten::Output(e) => {
            told::say_unwritten(rt, e);
            Ok(())
        }
    };
}

// Makes the files ready, one for each slot, then writes their records; answers the bytes of the bundle, where it is written whole.
fn pack(
    rt: &(impl Env + Files<File = fs::File> + Print + Eprint),
    slots: &mut [Option<Source>],
    buf: &mut [u8],
) -> Option<u64>
    ensures { IfSome result (λ end. (end ≡ bundle_length (sizes slots.new)) × (end ≤ byte_limit)) }
{
    open_all(rt, slots, buf)?;
    match write_records(rt, slots, buf) {
        Ok(end) => Some(end),
        Err(why) => {
            say_why(rt, why);
            None
        }
    }
}

// How many arguments there are, the program's name among them, or one more than there may be.
fn count_words(rt: &impl Env) -> usize {
    let mut start = [0u8; 1];
    for i in 0..18 {
        if let Err(FillError::NotPresent) = rt.arg(i, &mut start) {
            return i;
        }
    }
    18
}

fn main(rt: HostRuntime) {
    let words = count_words(&rt);
    if words < 2 {
        let _ = eprintln!(rt; "pack: name 1 to 16 files");
        return;
    }
    if 17 < words {
        let _ = eprintln!(rt; "pack: name 1 to 16 files, no more");
        return;
    }
    let mut slots = [const { None }; 16];
    let mut buf = [0u8; 65536];
    pack(&rt, &mut slots[..words - 1], &mut buf);
}
