// A track in pieces: `start`, `feed` with a piece of any length, `finish`. The caller lends the memory between them: numbers, the bytes of a
// header that is not whole yet, and a buffer for the one box of the top level that is gathered. Nothing of a data box is kept.
#![tactic(auto)]

ghost use Rattle.std.specs.Prelude.{◌≡◌, [], ◌+◌, ◌≤◌, leb, length};
ghost use Rattle.numbers.specs.Numbers.{when};
ghost use Rattle.rules.specs.Limits.{byte_limit, box_limit};
ghost use Rattle.pieces.specs.State.{comes_to, answer_of};
ghost use Rattle.pieces.specs.Form.{StartsAnyway, FeedsFrom, FinishesFrom};
ghost use Rattle.pieces.specs.Steps.{Sound, ComesSame};

use framing::{BOX_LIMIT, BYTE_LIMIT};
use rules::{Answer, Judged, Reached, Refusal, Verdict};
use state::{NUMBERS, Phase, Progress};

mod quick;
mod sound;
pub mod state;
mod step;

// Rule 29: the bytes that a `ftyp`, `moov` or `moof` may declare; the buffer is as long.
pub const GATHER_LIMIT: usize = 32768;

// A number that is no verdict's: what is answered of numbers that are not sound.
pub const NO_VERDICT: u64 = 18446744073709551615;

// The longest header.
pub const HEAD: usize = 16;

// The first state.
#[tactic(auto, using(crate::proofs::Begins::starts_at_lem))]
pub fn start(numbers: &mut [u64; NUMBERS])
    ensures { StartsAnyway numbers.new }
{
    *numbers = state::encode(Progress {
        phase: Phase::Head(0),
        total: 0,
        boxes: 0,
        course: Ok(Reached::Start),
    });
}

// Takes the bytes of a piece, step by step. The C interface lends numbers, header and buffer as three, so `head` and `kept` go beside the state,
// here, in `step` and in `quick`, and `Sound` stands in the contracts. A `while`, no plainer by `for`: each step says how many bytes it took.
fn take_in(st: Progress, head: &mut [u8], kept: &mut [u8], piece: &[u8]) -> Progress
    requires { Sound st head.old kept.old × (st.total + length piece.now ≤ byte_limit) }
    ensures { ComesSame st head.old kept.old piece.now result head.new kept.new }
{
    let mut state = st;
    let mut rest = piece;
    while !rest.is_empty() {
        let moved = step::step(state, head, kept, rest);
        state = moved.state;
        rest = &rest[moved.used..];
    }
    state
}

// A piece after a state: bytes over the byte limit are not looked at.
#[tactic(auto, using(crate::proofs::Piecemeal::goes_over))]
fn fed(st: Progress, head: &mut [u8], kept: &mut [u8], piece: &[u8]) -> Progress
    requires { Sound st head.old kept.old }
    ensures { ComesSame st head.old kept.old piece.now result head.new kept.new }
{
    if BYTE_LIMIT < st.total || BYTE_LIMIT - st.total < piece.len() {
        return step::stop_at(BYTE_LIMIT + 1, 1, 0);
    }
    take_in(st, head, kept, piece)
}

// One piece more.
#[tactic(auto, using(crate::proofs::Piecemeal::unsound_feeds, crate::proofs::Piecemeal::fed_feeds))]
pub fn feed(
    numbers: &mut [u64; NUMBERS],
    head: &mut [u8; HEAD],
    kept: &mut [u8; GATHER_LIMIT],
    piece: &[u8],
)
    ensures { FeedsFrom numbers.old head.old kept.old piece.now
        numbers.new head.new kept.new }
{
    if quick::quick(numbers, head, kept, piece) {
        return;
    }
    let st = state::decode(numbers);
    if !sound::is_sound(st, head, kept) {
        return;
    }
    *numbers = state::encode(fed(st, head, kept, piece));
}

// A refusal under a number, or 5 where there are too many boxes.
fn broken_as(boxes: usize, number: u64, place: usize) -> Refusal
    ensures { result ≡ record { number = when (leb box_limit boxes) 5 number; track = 0; place = place } }
{
    let first = if BOX_LIMIT <= boxes { 5 } else { number };
    Refusal::new(first, 0, place as u64)
}

// What the track comes to where no byte follows.
fn ended(st: Progress, head: &[u8], kept: &[u8]) -> Judged
    requires { Sound st head.now kept.now }
    ensures { result ≡ comes_to st head.now kept.now [] }
{
    if BYTE_LIMIT < st.total {
        return Err(Refusal::new(1, 0, 0));
    }
    match st.phase {
        Phase::Unstarted => Err(Refusal::new(NO_VERDICT, 0, 0)),
        Phase::Head(0) => track::course::course_end(st.total, st.course),
        Phase::Head(n) => Err(broken_as(st.boxes, 2, st.total - n)),
        Phase::Keep(n) => Err(broken_as(st.boxes, 4, st.total - n)),
        Phase::Skip { place, .. } => Err(Refusal::new(4, 0, place as u64)),
        Phase::Stopped(broken) => Err(broken.into()),
    }
}

// What is answered where the rules come to this.
#[tactic(auto, unfolding(crate::specs::State::answer_of))]
fn answer_of(j: Judged) -> Answer
    ensures { result ≡ answer_of j }
{
    match j {
        Ok(f) => Answer {
            verdict: Verdict {
                number: 0,
                track: 0,
                place: 0,
                count: f.fragments,
                timescale: u64::from(f.header.timescale),
            },
            first: f.start.unwrap_or(0),
            last: f.end.unwrap_or(0),
        },
        Err(refusal) => refusal.into(),
    }
}

// The answer for all the bytes since `start`; for numbers that are not sound, one that is no verdict.
#[tactic(auto, unfolding(crate::specs::Form::resume))]
pub fn finish(numbers: &[u64; NUMBERS], head: &[u8; HEAD], kept: &[u8; GATHER_LIMIT]) -> Answer
    ensures { FinishesFrom numbers.now head.now kept.now result }
{
    let st = state::decode(numbers);
    if !sound::is_sound(st, head, kept) {
        return Refusal::new(NO_VERDICT, 0, 0).into();
    }
    answer_of(ended(st, head, kept))
}
