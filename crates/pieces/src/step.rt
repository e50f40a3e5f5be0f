// One step through a piece: some bytes of a header, of a box that is gathered, or of one that passes by.
ghost use Rattle.std.specs.Prelude.{◌≡◌, ◌+◌, ◌≤◌, length};
ghost use Rattle.std.proofs.Math.Seq.{paste};
ghost use Rattle.rules.specs.Course.{and_box};
ghost use Rattle.rules.specs.Pieces.{gathered};
ghost use Rattle.track.specs.Course.{box_of, CourseFits, OwnHeld};
ghost use Rattle.pieces.specs.Steps.{waits_in, stopped_at, beginning_at, header_end, passing_of, MeansAnyway, MeansHeaded, Gathered, after_gathered};
ghost use Rattle.pieces.specs.Steps.{Whole, Gathers, PassesBy, after_passed, Follows, FollowsState, TakesSome, TakesState, StateAside};
ghost use Rattle.pieces.specs.declared.state.Phase.TheVariants.{Head, Keep};

use crate::GATHER_LIMIT;
use crate::sound::{halved, open_header, size_of};
use crate::state::{Phase, Progress};
use boxes::kinds::{FTYP, MOOF, MOOV};
use framing::BOX_LIMIT;
use numbers::BigEndian;
use rules::{Course, Misframed, Path, Reached, Spot};
use track::course::{and_box, passes};

// The state after a step, and the bytes that the step took.
#[derive(Clone, Copy)]
pub struct Moved {
    pub state: Progress,
    pub used: usize,
}

// Copies bytes to a place of a buffer. `copy_from_slice` calls `memmove`, which costs a piece of one byte a fifth more time.
#[tactic(auto, using(std::proofs::lemmas::List::Edits::paste_more))]
pub fn copy_in(to: &mut [u8], at: usize, from: &[u8])
    requires { at + length from.now ≤ length to.old }
    ensures { to.new ≡ paste to.old at from.now (length from.now) }
{
    for (i, &byte) in from.iter().enumerate() {
        to[at + i] = byte;
    }
}

// A framing refusal is met: nothing but rule 1 comes before it.
pub fn stop_at(total: usize, number: u64, place: usize) -> Progress
    ensures { result ≡ stopped_at total (record { number = number; place = place }) }
{
    Progress {
        phase: Phase::Stopped(Misframed { number, place }),
        total,
        boxes: 0,
        course: Err(0),
    }
}

// Whether a type is one whose boxes are gathered.
#[tactic(auto, unfolding(rules::specs::Pieces::gathered))]
fn gathered(kind: u32) -> bool
    ensures { result ≡ gathered kind }
{
    matches!(kind, FTYP | MOOV | MOOF)
}

// The bytes of the `moof` that waits in the buffer.
fn waits_in(course: Course) -> usize
    ensures { result ≡ waits_in course }
{
    if let Ok(Reached::Halved(_, m)) = course {
        m.size
    } else {
        0
    }
}

// One box more, unless it is passed over.
fn and_next(own: &[u8], waits: &[u8], course: Course, b: Spot, kind: u32) -> Course
    requires { CourseFits waits.now course × OwnHeld own.now b kind }
    ensures { result ≡ and_box own.now waits.now course (box_of b kind) }
{
    if passes(course, kind) {
        return course;
    }
    and_box(own, waits, course, b, kind)
}

// A box is gathered whole: what is inside it, and what it brings.
fn settle_box(st: Progress, size: usize, kept: &[u8]) -> Progress
    requires { Gathered st.course st.total st.boxes size kept.now }
    ensures { MeansAnyway (after_gathered st.course st.total st.boxes size kept.now) st.total result kept.now }
{
    let at = st.total - size;
    let own = &kept[..size];
    match framing::read_box(own, 0, Path::Top, at, st.boxes) {
        Ok(Some(past)) => {
            let b = Spot {
                at,
                head: past.head,
                size,
            };
            let course = and_next(own, &[], st.course, b, past.kind);
            Progress {
                phase: Phase::Head(0),
                boxes: past.boxes,
                course,
                ..st
            }
        }
        Ok(None) => stop_at(st.total, 2, at),
        Err(Misframed { number, place }) => stop_at(st.total, number, place),
    }
}

// The course where a box that is gathered begins: if a `moof` waits, that breaks the order.
fn beginning(course: Course, at: usize) -> Course
    ensures { result ≡ beginning_at course at }
{
    if halved(course) {
        return Err(at);
    }
    course
}

// The header of a box to gather is there: the box is gathered from now on.
fn gather(st: Progress, b: Spot, head: &[u8], kept: &mut [u8]) -> Progress
    requires { Gathers st.course st.total st.boxes b head.now kept.old }
    ensures means_headed { MeansHeaded st.course st.total st.boxes b.head result head.now kept.old
        kept.new }
    ensures kept_len_unchanged { length kept.new ≡ length kept.old }
{
    if GATHER_LIMIT < b.size {
        return stop_at(st.total, 29, b.at);
    }
    copy_in(kept, 0, &head[..b.head]);
    let course = beginning(st.course, b.at);
    if b.size == b.head {
        return settle_box(Progress { course, ..st }, b.size, kept);
    }
    Progress {
        phase: Phase::Keep(b.head),
        course,
        ..st
    }
}

// The phase where so many bytes are left of a box that passes by.
fn passing(left: usize, place: usize) -> Phase
    ensures { result ≡ passing_of left place }
{
    if left == 0 {
        Phase::Head(0)
    } else {
        Phase::Skip { left, place }
    }
}

// The header of a box that passes by is there: what the box brings.
fn pass_over(st: Progress, b: Spot, kind: u32, kept: &[u8]) -> Progress
    requires { PassesBy st.course st.total st.boxes b kind kept.now }
    ensures { MeansAnyway (after_passed st.course st.boxes b kind kept.now) st.total result kept.now }
{
    let waits = &kept[..waits_in(st.course)];
    Progress {
        phase: passing(b.size - b.head, b.at),
        boxes: st.boxes + 1,
        course: and_next(&[], waits, st.course, b, kind),
        ..st
    }
}

// A header of h bytes is there whole.
fn on_header(st: Progress, h: usize, head: &[u8], kept: &mut [u8]) -> Progress
    requires { Whole st.course st.total st.boxes h head.now kept.old }
    ensures means_headed { MeansHeaded st.course st.total st.boxes h result head.now kept.old
        kept.new }
    ensures kept_len_unchanged { length kept.new ≡ length kept.old }
{
    let b = Spot {
        at: st.total - h,
        head: h,
        size: size_of(head),
    };
    let kind = u32::read(head, 4);
    if BOX_LIMIT <= st.boxes {
        return stop_at(st.total, 5, b.at);
    }
    if b.size < h {
        return stop_at(st.total, 3, b.at);
    }
    if gathered(kind) {
        return gather(st, b, head, kept);
    }
    pass_over(st, b, kind, kept)
}

// Where a header ends of which n bytes are there: 8, and then, where they say so, 16.
fn header_end(n: usize) -> usize
    ensures { result ≡ header_end n }
{
    if n < 8 { 8 } else { 16 }
}

// Some bytes of a header, of which n are there.
fn into_header(st: Progress, n: usize, head: &mut [u8], kept: &mut [u8], more: &[u8]) -> Moved
    requires { Follows (Head n) st.course st.total st.boxes head.old kept.old more.now }
    ensures { TakesSome (Head n) st.course st.total st.boxes head.old kept.old more.now result
        head.new kept.new }
{
    let used = more.len().min(header_end(n) - n);
    copy_in(head, n, &more[..used]);
    let there = n + used;
    let total = st.total + used;
    if open_header(head, there) {
        let phase = Phase::Head(there);
        let state = Progress { phase, total, ..st };
        return Moved { state, used };
    }
    let state = on_header(Progress { total, ..st }, there, head, kept);
    Moved { state, used }
}

// Some bytes of a box that is gathered, of which n are there.
fn into_box(st: Progress, n: usize, head: &[u8], kept: &mut [u8], more: &[u8]) -> Moved
    requires { Follows (Keep n) st.course st.total st.boxes head.now kept.old more.now }
    ensures { TakesSome (Keep n) st.course st.total st.boxes head.now kept.old more.now result
        head.now kept.new }
{
    let size = size_of(kept);
    let used = more.len().min(size - n);
    copy_in(kept, n, &more[..used]);
    let there = n + used;
    let total = st.total + used;
    if there < size {
        let phase = Phase::Keep(there);
        let state = Progress { phase, total, ..st };
        return Moved { state, used };
    }
    let state = settle_box(Progress { total, ..st }, size, kept);
    Moved { state, used }
}

// One step into the bytes that follow.
pub fn step(st: Progress, head: &mut [u8], kept: &mut [u8], more: &[u8]) -> Moved
    requires { FollowsState st head.old kept.old more.now }
    ensures takes { TakesState st head.old kept.old more.now result head.new kept.new }
    ensures aside { StateAside st head.old kept.old more.now result head.new kept.new }
{
    match st.phase {
        Phase::Unstarted => Moved {
            state: st,
            used: more.len(),
        },
        Phase::Head(n) => into_header(st, n, head, kept, more),
        Phase::Keep(n) => into_box(st, n, head, kept, more),
        Phase::Skip { left, place } => {
            let used = more.len().min(left);
            let state = Progress {
                phase: passing(left - used, place),
                total: st.total + used,
                ..st
            };
            Moved { state, used }
        }
        Phase::Stopped(_) => {
            let used = more.len();
            let state = Progress {
                total: st.total + used,
                ..st
            };
            Moved { state, used }
        }
    }
}
