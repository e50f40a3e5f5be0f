// The state between two pieces, as numbers in the memory that the caller lends.
ghost use Rattle.std.specs.Prelude.{◌≡◌};
ghost use Rattle.pieces.specs.State.{phase_of, low32, tick_from, facts_from, judged_from};
ghost use Rattle.pieces.specs.State.{spot_from, of_ftyp, course_by, state_of, moved_on};

use rules::{Course, Defaults, Header, Judged, Misframed, Reached, Refusal, Spot, TrackFacts};

// The numbers of a state.
pub const NUMBERS: usize = 24;

// Where the bytes so far end: nowhere, where no `start` was; so many bytes into a box's header; so many bytes into a box that is gathered; so many
// bytes before the end of the box at a place, which passes by; or anywhere, where a framing refusal was met.
#[derive(Clone, Copy)]
pub enum Phase {
    Unstarted,
    Head(usize),
    Keep(usize),
    Skip { left: usize, place: usize },
    Stopped(Misframed),
}

// A state: the phase, the bytes so far, the boxes so far, and what they came to.
#[derive(Clone, Copy)]
pub struct Progress {
    pub phase: Phase,
    pub total: usize,
    pub boxes: usize,
    pub course: Course,
}

// The number of a case with its values: the lent memory of the C interface holds numbers alone, so a case is one here and in `CourseParts`.
#[derive(Clone, Copy)]
struct Tagged {
    tag: u64,
    a: u64,
    b: u64,
}

// The number of a course's case, with the rules so far and the spot of the `moof` that waits.
#[derive(Clone, Copy)]
struct CourseParts {
    tag: u64,
    judged: Judged,
    spot: Spot,
}

// A phase by its number and its values.
#[tactic(auto, unfolding(crate::specs::State::phase_of))]
pub fn phase_of(tag: u64, a: u64, b: u64) -> Phase
    ensures { result ≡ phase_of tag a b }
{
    match tag {
        1 => Phase::Head(a as usize),
        2 => Phase::Keep(a as usize),
        3 => Phase::Skip {
            left: a as usize,
            place: b as usize,
        },
        4 => Phase::Stopped(Misframed {
            number: a,
            place: b as usize,
        }),
        _ => Phase::Unstarted,
    }
}

// A tick by whether it is set and its value.
#[tactic(auto, unfolding(crate::specs::State::tick_from))]
fn tick_from(tag: u64, a: u64) -> Option<u64>
    ensures { result ≡ tick_from tag a }
{
    if tag == 1 { Some(a) } else { None }
}

// A number's low 32 bits. A cast alone is refused where it may lose bits, and scribbled numbers may be longer.
fn low32(n: u64) -> u32
    ensures { result ≡ low32 n }
{
    (n % 4294967296) as u32
}

// What is known of a track, by the numbers.
#[tactic(auto, unfolding(crate::specs::State::facts_from))]
fn facts_from(ns: &[u64; NUMBERS]) -> TrackFacts
    ensures { result ≡ facts_from ns.now }
{
    let defaults = Defaults {
        duration: low32(ns[10]),
        size: low32(ns[11]),
        flags: low32(ns[12]),
    };
    let header = Header {
        timescale: low32(ns[7]),
        id: low32(ns[8]),
        handler: low32(ns[9]),
        defaults,
    };
    let start = tick_from(ns[16], ns[17]);
    let end = tick_from(ns[18], ns[19]);
    let plain = ns[23] == 1;
    TrackFacts {
        header,
        mdhd: ns[13],
        hdlr: ns[14],
        fragments: ns[15],
        plain,
        start,
        end,
    }
}

// What the rules so far come to, by the numbers.
#[tactic(auto, unfolding(crate::specs::State::judged_from))]
fn judged_from(ns: &[u64; NUMBERS]) -> Judged
    ensures { result ≡ judged_from ns.now }
{
    if ns[6] == 1 {
        return Ok(facts_from(ns));
    }
    Err(Refusal::new(ns[7], ns[8], ns[9]))
}

// Where the `moof` that waits stood, by the numbers.
#[tactic(auto, unfolding(crate::specs::State::spot_from))]
fn spot_from(ns: &[u64; NUMBERS]) -> Spot
    ensures { result ≡ spot_from ns.now }
{
    Spot {
        at: ns[20] as usize,
        head: ns[21] as usize,
        size: ns[22] as usize,
    }
}

// What the boxes so far came to, by the number of its case, the rules so far, and the spot of the `moof` that waits.
#[tactic(auto, unfolding(crate::specs::State::course_by))]
fn course_by(tag: u64, j: Judged, m: Spot) -> Course
    ensures { result ≡ course_by tag j m }
{
    match tag {
        0 => Ok(Reached::Start),
        1 => Ok(Reached::Typed(Some(false))),
        2 => Ok(Reached::Typed(Some(true))),
        3 => Ok(Reached::Typed(None)),
        4 => Ok(Reached::Headed(j)),
        5 => Ok(Reached::Halved(j, m)),
        6 => Ok(Reached::Paired(j)),
        _ => Err(m.at),
    }
}

// The state that the numbers are.
#[tactic(auto, unfolding(crate::specs::State::state_of))]
pub fn decode(ns: &[u64; NUMBERS]) -> Progress
    ensures { result ≡ state_of ns.now }
{
    let phase = phase_of(ns[0], ns[1], ns[2]);
    let judged = judged_from(ns);
    let course = course_by(ns[5], judged, spot_from(ns));
    Progress {
        phase,
        total: ns[3] as usize,
        boxes: ns[4] as usize,
        course,
    }
}

// A phase's number and values.
#[tactic(auto, unfolding(crate::specs::State::phase_of))]
fn of_phase(phase: Phase) -> Tagged
    ensures { phase_of result.tag result.a result.b ≡ phase }
{
    match phase {
        Phase::Unstarted => Tagged { tag: 0, a: 0, b: 0 },
        Phase::Head(n) => Tagged {
            tag: 1,
            a: n as u64,
            b: 0,
        },
        Phase::Keep(n) => Tagged {
            tag: 2,
            a: n as u64,
            b: 0,
        },
        Phase::Skip { left, place } => Tagged {
            tag: 3,
            a: left as u64,
            b: place as u64,
        },
        Phase::Stopped(Misframed { number, place }) => Tagged {
            tag: 4,
            a: number,
            b: place as u64,
        },
    }
}

// A tick's number and value.
#[tactic(auto, unfolding(crate::specs::State::tick_from))]
fn of_tick(tick: Option<u64>) -> Tagged
    ensures { tick_from result.tag result.a ≡ tick }
{
    match tick {
        None => Tagged { tag: 0, a: 0, b: 0 },
        Some(t) => Tagged { tag: 1, a: t, b: 0 },
    }
}

// The number of what `ftyp` tells, as a course's case.
fn of_ftyp(f: Option<bool>) -> u64
    ensures { result ≡ of_ftyp f }
{
    match f {
        Some(false) => 1,
        Some(true) => 2,
        None => 3,
    }
}

// A course's case, with its rules so far and its spot.
#[tactic(auto, unfolding(crate::specs::State::course_by))]
fn of_course(course: Course) -> CourseParts
    ensures { course_by result.tag result.judged result.spot ≡ course }
{
    let none: Judged = Err(Refusal::new(0, 0, 0));
    let nowhere = Spot {
        at: 0,
        head: 0,
        size: 0,
    };
    match course {
        Err(at) => CourseParts {
            tag: 7,
            judged: none,
            spot: Spot { at, ..nowhere },
        },
        Ok(Reached::Start) => CourseParts {
            tag: 0,
            judged: none,
            spot: nowhere,
        },
        Ok(Reached::Typed(f)) => CourseParts {
            tag: of_ftyp(f),
            judged: none,
            spot: nowhere,
        },
        Ok(Reached::Headed(j)) => CourseParts {
            tag: 4,
            judged: j,
            spot: nowhere,
        },
        Ok(Reached::Halved(j, m)) => CourseParts {
            tag: 5,
            judged: j,
            spot: m,
        },
        Ok(Reached::Paired(j)) => CourseParts {
            tag: 6,
            judged: j,
            spot: nowhere,
        },
    }
}

// The numbers of a state. `encode` and `decode` are functions and no `From`: the C interface lends the numbers in this order, and as impls they are no plainer.
pub fn encode(st: Progress) -> [u64; NUMBERS]
    ensures { state_of result ≡ st }
{
    let p = of_phase(st.phase);
    let c = of_course(st.course);
    let m = c.spot;
    match c.judged {
        Err(e) => [
            p.tag,
            p.a,
            p.b,
            st.total as u64,
            st.boxes as u64,
            c.tag,
            0,
            e.number,
            e.track,
            e.place,
            0,
            0,
            0,
            0,
            0,
            0,
            0,
            0,
            0,
            0,
            m.at as u64,
            m.head as u64,
            m.size as u64,
            0,
        ],
        Ok(f) => {
            let h = f.header;
            let d = h.defaults;
            let start = of_tick(f.start);
            let end = of_tick(f.end);
            [
                p.tag,
                p.a,
                p.b,
                st.total as u64,
                st.boxes as u64,
                c.tag,
                1,
                u64::from(h.timescale),
                u64::from(h.id),
                u64::from(h.handler),
                u64::from(d.duration),
                u64::from(d.size),
                u64::from(d.flags),
                f.mdhd,
                f.hdlr,
                f.fragments,
                start.tag,
                start.a,
                end.tag,
                end.a,
                m.at as u64,
                m.head as u64,
                m.size as u64,
                u64::from(f.plain),
            ]
        }
    }
}

// The phase's first value and the bytes so far anew, and all others as they are.
#[tactic(auto, using(crate::proofs::Numbers24::moves_on))]
pub fn move_on(ns: &mut [u64; NUMBERS], a: u64, total: u64)
    ensures { state_of ns.new ≡ moved_on ns.old a total }
{
    ns[1] = a;
    ns[3] = total;
}
