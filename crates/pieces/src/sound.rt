// Which states are sound: numbers that someone has scribbled over are noticed where they would lead out of the lent memory.
ghost use Rattle.std.specs.Prelude.{◌≡◌};
ghost use Rattle.rules.specs.Boxes.{head_of, size_of};
ghost use Rattle.pieces.specs.State.{few_fragments, kept_box, sound_course, halved, open_header, open_box, sound_phase, sound};

use crate::GATHER_LIMIT;
use crate::state::{Phase, Progress};
use framing::BYTE_LIMIT;
use numbers::BigEndian;
use rules::{Course, Judged, Reached, Spot};

// The header length of the box that the bytes begin with.
#[tactic(auto, unfolding(rules::specs::Boxes::head_of))]
pub fn head_of(s: &[u8]) -> usize
    ensures { result ≡ head_of s.now 0 }
{
    if u32::read(s, 0) == 1 { 16 } else { 8 }
}

// The whole size of the box that the bytes begin with.
#[tactic(auto, unfolding(rules::specs::Boxes::size_of))]
pub fn size_of(s: &[u8]) -> usize
    ensures { result ≡ size_of s.now 0 }
{
    let short = u32::read(s, 0);
    if short == 1 {
        u64::read(s, 8) as usize
    } else {
        short as usize
    }
}

// Whether the fragments are no more than the boxes so far.
#[tactic(auto, unfolding(crate::specs::State::few_fragments))]
fn few_fragments(j: Judged, boxes: usize) -> bool
    ensures { result ≡ few_fragments j boxes }
{
    match j {
        Ok(f) => f.fragments <= boxes as u64,
        Err(_) => true,
    }
}

// Whether the buffer begins with the whole box of a spot.
#[tactic(auto, unfolding(crate::specs::State::kept_box))]
fn kept_box(kept: &[u8], m: Spot) -> bool
    ensures { result ≡ kept_box kept.now m }
{
    head_of(kept) == m.head && size_of(kept) == m.size && m.head <= m.size && m.size <= GATHER_LIMIT
}

// Whether a `moof` waits in the buffer.
#[tactic(auto, unfolding(crate::specs::State::halved))]
pub fn halved(course: Course) -> bool
    ensures { result ≡ halved course }
{
    matches!(course, Ok(Reached::Halved(..)))
}

// Whether a course is sound.
#[tactic(auto, unfolding(crate::specs::State::sound_course))]
fn sound_course(course: Course, boxes: usize, kept: &[u8]) -> bool
    ensures { result ≡ sound_course course boxes kept.now }
{
    match course {
        Err(_) | Ok(Reached::Start | Reached::Typed(_)) => true,
        Ok(Reached::Headed(j) | Reached::Paired(j)) => few_fragments(j, boxes),
        Ok(Reached::Halved(j, m)) => few_fragments(j, boxes)
            && m.at <= BYTE_LIMIT
            && kept_box(kept, m),
    }
}

// Whether a header is not there whole, of which so many bytes are.
#[tactic(auto, unfolding(crate::specs::State::open_header))]
pub fn open_header(head: &[u8], n: usize) -> bool
    ensures { result ≡ open_header head.now n }
{
    n < 8 || n < 16 && u32::read(head, 0) == 1
}

// Whether a gathered box is not there whole, of which so many bytes are.
#[tactic(auto, unfolding(crate::specs::State::open_box))]
pub fn open_box(kept: &[u8], n: usize) -> bool
    ensures { result ≡ open_box kept.now n }
{
    let size = size_of(kept);
    head_of(kept) <= n && n < size && size <= GATHER_LIMIT
}

// Whether a phase is sound.
#[tactic(auto, unfolding(crate::specs::State::sound_phase))]
fn sound_phase(phase: Phase, course: Course, total: usize, head: &[u8], kept: &[u8]) -> bool
    ensures { result ≡ sound_phase phase course total head.now kept.now }
{
    match phase {
        Phase::Unstarted => false,
        Phase::Head(n) => n <= total && open_header(head, n),
        Phase::Keep(n) => n <= total && open_box(kept, n) && !halved(course),
        Phase::Skip { left, .. } => 0 < left,
        Phase::Stopped(_) => true,
    }
}

// Whether a state is sound.
#[tactic(auto, unfolding(crate::specs::State::sound))]
pub fn is_sound(st: Progress, head: &[u8], kept: &[u8]) -> bool
    ensures { result ≡ sound st head.now kept.now }
{
    sound_phase(st.phase, st.course, st.total, head, kept)
        && sound_course(st.course, st.boxes, kept)
}
