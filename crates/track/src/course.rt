// One pass over the top level: what a track has come to after some of its boxes.
ghost use Rattle.std.specs.Prelude.{◌≡◌, ◌+◌, ◌-◌, ◌≤◌, length};
ghost use Rattle.rules.specs.Limits.{byte_limit};
ghost use Rattle.rules.specs.Order.{ordered, awaits, step6};
ghost use Rattle.rules.specs.Course.{stage_of, opened, joined, brought, and_box, course_end};
ghost use Rattle.boxes.specs.Stands.{WholeBox};
ghost use Rattle.track.specs.Course.{box_of, FewFragments, CourseFits, OwnHeld, Brings, Stops, SaysPasses, FaultUpTo, refusal_of, waits_from};

use boxes::kinds::{FTYP, MDAT, MOOF, MOOV};
use chunk::Setting;
use header::HeaderFault;
use rules::{Course, Judged, Reached, Refusal, Spot, Stage, TrackFacts};

// Whether the order speaks of a type.
#[tactic(auto, unfolding(rules::specs::Order::ordered))]
fn ordered(kind: u32) -> bool
    ensures { result ≡ ordered kind }
{
    matches!(kind, FTYP | MOOV | MOOF | MDAT)
}

// Rule 6: the awaited type leads on, another of the four is wrong, any other box is passed over.
#[tactic(auto, unfolding(rules::specs::Order::awaits))]
fn awaits(w: u32, next: Stage, same: Stage, kind: u32) -> Option<Stage>
    ensures { result ≡ awaits w next same kind }
{
    if kind == w {
        return Some(next);
    }
    if ordered(kind) {
        return None;
    }
    Some(same)
}

// Rule 6: the stage after a box of a type.
#[tactic(auto, unfolding(rules::specs::Order::step6))]
fn step6(stage: Stage, kind: u32) -> Option<Stage>
    ensures { result ≡ step6 stage kind }
{
    match stage {
        Stage::Start => (kind == FTYP).then_some(Stage::Typed),
        Stage::Typed => awaits(MOOV, Stage::Headed, Stage::Typed, kind),
        Stage::Headed => awaits(MOOF, Stage::Halved, Stage::Headed, kind),
        Stage::Halved => (kind == MDAT).then_some(Stage::Paired),
        Stage::Paired => awaits(MOOF, Stage::Halved, Stage::Paired, kind),
    }
}

// The stage that is reached.
fn stage_of(reached: Reached) -> Stage
    ensures { result ≡ stage_of reached }
{
    match reached {
        Reached::Start => Stage::Start,
        Reached::Typed(_) => Stage::Typed,
        Reached::Headed(_) => Stage::Headed,
        Reached::Halved(..) => Stage::Halved,
        Reached::Paired(_) => Stage::Paired,
    }
}

// A refusal at a place of a box's bytes, by where the box stands.
fn moved_by(e: Refusal, base: usize) -> Refusal
    requires { (e.place ≤ byte_limit) × (base ≤ byte_limit) }
    ensures { result ≡ record { number = e.number; track = e.track; place = base + e.place } }
{
    Refusal {
        place: base as u64 + e.place,
        ..e
    }
}

// The refusal of a header whose `moov` stands at a place.
fn refusal_of(fault: HeaderFault, at: usize) -> Refusal
    requires { FaultUpTo fault byte_limit × (at ≤ byte_limit) }
    ensures { result ≡ refusal_of fault at }
{
    match fault {
        HeaderFault::FtypBody => Refusal::new(8, 0, 0),
        HeaderFault::NoBrand => Refusal::new(9, 0, 0),
        HeaderFault::OfMoov(e) => moved_by(e, at),
    }
}

// `moov`, by its bytes, after `ftyp`: the header's rules.
fn opened(own: &[u8], f: Option<bool>, b: Spot) -> Judged
    requires { WholeBox own.now b.head × (length own.now ≤ byte_limit) × (b.at ≤ byte_limit) }
    ensures { result ≡ opened f b.at own.now }
{
    let base = b.at as u64;
    match header::check_header(f, own, b.head) {
        Ok(x) => Ok(TrackFacts {
            header: x.header,
            mdhd: base + x.mdhd as u64,
            hdlr: base + x.hdlr as u64,
            fragments: 0,
            plain: true,
            start: None,
            end: None,
        }),
        Err(fault) => Err(refusal_of(fault, b.at)),
    }
}

// A `moof`, by its bytes, and its `mdat`, after rules that hold: the chunk's rules, and one fragment more where it begins one.
fn and_chunk(moof: &[u8], f: TrackFacts, m: Spot, mdat: Spot) -> Judged
    requires whole_box { WholeBox moof.now m.head × (length moof.now ≤ byte_limit) × (m.at ≤ byte_limit) }
    requires head_bound { (mdat.head ≤ 16) × (mdat.head ≤ mdat.size) × (f.fragments ≤ byte_limit) }
    ensures { result ≡ joined (Ok f) m.at moof.now mdat.head (mdat.size - mdat.head) }
{
    let setting = Setting {
        header: f.header,
        head: mdat.head as u64,
        payload: (mdat.size - mdat.head) as u64,
        prev: f.end,
    };
    match chunk::check_chunk(moof, m.head, setting) {
        Ok(x) => Ok(TrackFacts {
            fragments: f.fragments + u64::from(x.sync),
            plain: f.plain && x.sync,
            start: f.start.or(Some(x.start)),
            end: Some(x.end),
            ..f
        }),
        Err(e) => Err(moved_by(e, m.at)),
    }
}

// A `moof` and its `mdat`: the chunk's rules, unless one was broken before.
#[tactic(auto, unfolding(rules::specs::Course::joined))]
fn joined(moof: &[u8], sofar: Judged, m: Spot, mdat: Spot) -> Judged
    requires whole_box { WholeBox moof.now m.head × (length moof.now ≤ byte_limit) × (m.at ≤ byte_limit) }
    requires head_bound { (mdat.head ≤ 16) × (mdat.head ≤ mdat.size) × FewFragments sofar byte_limit }
    ensures { result ≡ joined sofar m.at moof.now mdat.head (mdat.size - mdat.head) }
{
    let facts = sofar?;
    and_chunk(moof, facts, m, mdat)
}

// What the box that a stage awaits brings, by its own bytes and those of the `moof` that waits. `CourseFits` stands in three contracts and in no struct, no
// plainer: the bytes that wait are the caller's, in a slice or in a buffer, and other ones at each call.
#[tactic(auto, unfolding(rules::specs::Course::brought))]
fn brought(own: &[u8], waits: &[u8], reached: Reached, b: Spot) -> Reached
    requires { CourseFits waits.now (Ok reached) × Brings own.now reached b }
    ensures { result ≡ brought own.now waits.now reached b }
{
    match reached {
        Reached::Start => Reached::Typed(header::ftyp::read_ftyp(own, b.head)),
        Reached::Typed(f) => Reached::Headed(opened(own, f, b)),
        Reached::Headed(j) => Reached::Halved(j, b),
        Reached::Halved(j, m) => Reached::Paired(joined(waits, j, m, b)),
        Reached::Paired(j) => Reached::Halved(j, b),
    }
}

// Whether a box of a type is passed over and leaves what was come to as it is.
pub fn passes(course: Course, kind: u32) -> bool
    ensures { SaysPasses result course kind }
{
    let Ok(reached) = course else {
        return true;
    };
    matches!(
        reached,
        Reached::Typed(_) | Reached::Headed(_) | Reached::Paired(_)
    ) && !ordered(kind)
}

// Where the `moof` that waits before a place begins; the place itself where none waits.
pub fn waits_from(course: Course, at: usize) -> usize
    ensures { result ≡ waits_from course at }
{
    match course {
        Ok(Reached::Halved(_, m)) => m.at,
        _ => at,
    }
}

// One box more, which is not passed over, by its own bytes and those of the `moof` that waits: rule 6 tells whether it may stand there, and then it
// brings what its stage awaits. Of the own bytes only those of `ftyp` and `moov` are looked at.
#[tactic(auto, using(crate::proofs::Stepping::box_wrong, crate::proofs::Stepping::box_brought, crate::proofs::Stepping::brings), unfolding(rules::specs::Course::and_box))]
pub fn and_box(own: &[u8], waits: &[u8], course: Course, b: Spot, kind: u32) -> Course
    requires { CourseFits waits.now course × OwnHeld own.now b kind × Stops course kind }
    ensures { result ≡ and_box own.now waits.now course (box_of b kind) }
{
    let reached = course?;
    let Some(_) = step6(stage_of(reached), kind) else {
        return Err(b.at);
    };
    Ok(brought(own, waits, reached, b))
}

// Where a slice of some bytes has no more boxes.
#[tactic(auto, unfolding(rules::specs::Course::course_end))]
pub fn course_end(length: usize, course: Course) -> Judged
    ensures { result ≡ course_end length course }
{
    match course {
        Ok(Reached::Paired(j)) => j,
        Ok(_) => Err(disordered(length)),
        Err(at) => Err(disordered(at)),
    }
}

// The order breaks at a place.
fn disordered(at: usize) -> Refusal
    ensures { result ≡ record { number = 6; track = 0; place = at } }
{
    Refusal::new(6, 0, at as u64)
}
