// Framing, rules 2 to 5 over the boxes of a slice, and the index job.
#![tactic(auto)]

ghost use Rattle.std.specs.Prelude.{◌≡◌, [], ◌∷◌, ◌+◌, ◌≤◌, length};
ghost use Rattle.std.proofs.lemmas.List.Edits.{sets};
ghost use Rattle.rules.specs.Boxes.{look, forest};
ghost use Rattle.rules.specs.Framing.{framing, framed, rows};
ghost use Rattle.rules.specs.Jobs.{Permits};
ghost use Rattle.rules.specs.Track.{index_outcome};
ghost use Rattle.rules.specs.declared.Path.TheVariants.{Top};
ghost use Rattle.framing.specs.Steps.{InReach, past_header, PastBounds, Read, Writes, indexed};

use rules::{Framing, Look, Misframed, Path, Refusal, Verdict, must};

// Rule 1: the bytes of a slice.
pub const BYTE_LIMIT: usize = 1073741824;

// Rule 5: the boxes of a slice.
pub const BOX_LIMIT: usize = 65536;

// A box that was read: its header's length, its whole size and its type, and the boxes up to its end.
#[derive(Clone, Copy)]
pub struct Past {
    pub head: usize,
    pub size: usize,
    pub kind: u32,
    pub boxes: usize,
}

// What reading one box comes to: past it; no byte left; or a refusal.
pub type Step = Result<Option<Past>, Misframed>;

// What stands at a place of a run whose slice starts at a base, with n boxes before it: the step past it, if nothing is inside it.
#[tactic(auto, using(rules::proofs::Forest::look_nothing, crate::proofs::Steps::limit_met))]
fn header_at(s: &[u8], at: usize, base: usize, n: usize) -> Step
    requires { InReach base s.now }
    ensures value { result ≡ past_header (look s.now at) (base + at) n }
    ensures past_bounds { PastBounds result (length s.now) at }
{
    if s.len() <= at {
        return Ok(None);
    }
    let place = base + at;
    if BOX_LIMIT <= n {
        return Err(Misframed { number: 5, place });
    }
    match boxes::look(s, at) {
        Look::Nothing => Ok(None),
        Look::Short => Err(Misframed { number: 2, place }),
        Look::Small => Err(Misframed { number: 3, place }),
        Look::Beyond => Err(Misframed { number: 4, place }),
        Look::Good { head, size, kind } => Ok(Some(Past {
            head,
            size,
            kind,
            boxes: n + 1,
        })),
    }
}

// Reads the box at a place of a run whose slice starts at a base, with n boxes before it, and what is inside it: a step of `read_run`, which calls it
// and which it calls. With slice, path and base as one struct the index takes 1.10 of the instructions, over the bar of docs/SPEED.md, none slower than before;
// so `InReach` stands in each contract.
#[cycle(next_box_read_run)]
fn next_box(s: &[u8], at: usize, path: Path, base: usize, n: usize) -> Step
    requires { InReach base s.now }
    ensures { Read result s.now at path base n }
{
    let Some(next) = header_at(s, at, base, n)? else {
        return Ok(None);
    };
    let Some(inner) = boxes::inside(path, next.kind) else {
        return Ok(Some(next));
    };
    let body = &s[at + next.head..at + next.size];
    let start = base + at + next.head;
    let boxes = read_run(body, inner, start, next.boxes)?;
    Ok(Some(Past { boxes, ..next }))
}

// Reads a run of boxes, from the start of a slice that starts at a base to its end, with n boxes before it. A loop and no `for`: no plainer, since an iterator
// would hold the same place and count, and a refusal leaves the loop.
#[cycle(next_box_read_run)]
pub fn read_run(s: &[u8], path: Path, base: usize, n: usize) -> Framing
    requires { InReach base s.now }
    ensures { result ≡ framing (forest path s.now 0) base n }
{
    let mut at = 0;
    let mut count = n;
    loop {
        let Some(past) = next_box(s, at, path, base, count)? else {
            return Ok(count);
        };
        at += past.size;
        count = past.boxes;
    }
}

// Reads the box as `next_box` does, outside that cycle, for callers that read one box: the compiler puts it into them.
// Were `next_box` called from here, the index would take 1.45 of the instructions and a track of 10 KiB 1.15,
// over the bar of docs/SPEED.md, none slower than before.
pub fn read_box(s: &[u8], at: usize, path: Path, base: usize, n: usize) -> Step
    requires { InReach base s.now }
    ensures { Read result s.now at path base n }
{
    let Some(past) = header_at(s, at, base, n)? else {
        return Ok(None);
    };
    let Some(inner) = boxes::inside(path, past.kind) else {
        return Ok(Some(past));
    };
    let body = &s[at + past.head..at + past.size];
    let start = base + at + past.head;
    let boxes = read_run(body, inner, start, past.boxes)?;
    Ok(Some(Past { boxes, ..past }))
}

// Reads the box at a place of the top level, with n boxes before it, and what is inside it.
pub fn top_box(s: &[u8], at: usize, n: usize) -> Step
    requires { InReach 0 s.now }
    ensures { Read result s.now at Top 0 n }
{
    read_box(s, at, Path::Top, 0, n)
}

// How a whole slice is framed: rules 2 to 5.
pub fn frame(s: &[u8]) -> Framing
    ensures { result ≡ framed s.now }
{
    read_run(s, Path::Top, 0, 0)
}

// Past a box that was written: the next place of the slice and of the table.
#[derive(Clone, Copy)]
struct Wrote {
    next: usize,
    row: usize,
}

// Writes four numbers from a place of the table. One by one: by `copy_from_slice` of the four the index takes 1.23 to 1.25 of the instructions, over the bar
// of docs/SPEED.md, none slower than before.
fn put(t: &mut [u64], row: usize, offset: u64, size: u64, kind: u64, depth: u64)
    requires { row + 4 ≤ length t.old }
    ensures { t.new ≡ sets t.old row (offset ∷ size ∷ kind ∷ depth ∷ []) }
{
    t[row] = offset;
    t[row + 1] = size;
    t[row + 2] = kind;
    t[row + 3] = depth;
}

// Writes the index of the box at a place, and of what is inside it, from a place of the table. `InReach` and the others stand in both contracts: no plainer
// in one struct, since slice, path, base and depth are other ones in each box, and the table and its place at each.
#[cycle(write_box_write_run)]
fn write_box(
    s: &[u8],
    at: usize,
    path: Path,
    base: usize,
    depth: u64,
    t: &mut [u64],
    row: usize,
) -> Option<Wrote>
    requires in_reach { InReach base s.now }
    requires depth_le_base { depth ≤ base }
    requires depth_in_bounds { row + length (rows (forest path s.now at) base depth) ≤ length t.old }
    ensures { Writes result s.now at path base depth row t.old t.new }
{
    let Look::Good { head, size, kind } = boxes::look(s, at) else {
        return None;
    };
    let place = base + at;
    put(t, row, place as u64, size as u64, kind as u64, depth);
    let next = at + size;
    let row = match boxes::inside(path, kind) {
        None => row + 4,
        Some(inner) => {
            let from = at + head;
            write_run(&s[from..next], inner, place + head, depth + 1, t, row + 4)
        }
    };
    Some(Wrote { next, row })
}

// Writes the index of a run of boxes from a place of the table; answers the place after it. A loop and no `for`: no plainer, since an iterator
// over `write_box` would hold the table, lent on at each step, and hand out the place in it.
#[cycle(write_box_write_run)]
fn write_run(s: &[u8], path: Path, base: usize, depth: u64, t: &mut [u64], row: usize) -> usize
    requires in_reach { InReach base s.now }
    requires depth_le_base { depth ≤ base }
    requires depth_in_bounds { row + length (rows (forest path s.now 0) base depth) ≤ length t.old }
    ensures value { result ≡ row + length (rows (forest path s.now 0) base depth) }
    ensures t_after { t.new ≡ sets t.old row (rows (forest path s.now 0) base depth) }
{
    let mut at = 0;
    let mut to = row;
    loop {
        let Some(past) = write_box(s, at, path, base, depth, t, to) else {
            return to;
        };
        at = past.next;
        to = past.row;
    }
}

// Rules 1 to 5 over a slice, then room, and the index: four numbers a box, as many boxes as it answers.
fn write_index(s: &[u8], t: &mut [u64]) -> Result<usize, Refusal>
    ensures { Permits index_outcome s.now t.old (indexed result) t.new }
{
    must(s.len() <= BYTE_LIMIT, 1, 0)?;
    let boxes = frame(s)?;
    must(boxes <= t.len() / 4, 23, 0)?;
    write_run(s, Path::Top, 0, 0, t, 0);
    Ok(boxes)
}

// The index job: rules 1 to 5, then room; four numbers a box, or no number.
pub fn index_job(s: &[u8], t: &mut [u64]) -> Verdict
    ensures { Permits index_outcome s.now t.old result t.new }
{
    match write_index(s, t) {
        Ok(boxes) => Verdict {
            number: 0,
            track: 0,
            place: 0,
            count: boxes as u64,
            timescale: 0,
        },
        Err(e) => Verdict::from(e),
    }
}
