// The C interface: the three jobs, and the form that takes pieces, over memory that the caller lends; include/flangemint.h declares them.
#![tactic(auto)]

ghost use Rattle.std.specs.Prelude.{◌≡◌};
ghost use Rattle.rules.specs.Track.{index_outcome, track_outcome};
ghost use Rattle.rules.specs.Set.{set_outcome};
ghost use Rattle.pieces.specs.Form.{StartsAnyway, FeedsFrom};
ghost use Rattle.flangemint.specs.Gives.{in_order, Gives, answered_in, GivesAnswer};

use rules::{Answer, Verdict};

// A verdict's five numbers, in the order in which C finds them.
// No From: neither type is this crate's, so the impl would stand in rules,
// away from the edits `place_and_count`, `timescale_is_count` that hold C's order here.
fn in_order(v: Verdict) -> [u64; 5]
    ensures { result ≡ in_order v }
{
    [v.number, v.track, v.place, v.count, v.timescale]
}

// The index job.
#[unsafe(no_mangle)]
pub extern "C" fn flangemint_index(bytes: &[u8], table: &mut [u64], verdict: &mut [u64; 5])
    ensures { Gives (index_outcome bytes.now table.old) verdict.new table.new }
{
    *verdict = in_order(framing::index_job(bytes, table));
}

// The track job.
#[unsafe(no_mangle)]
pub extern "C" fn flangemint_track(bytes: &[u8], table: &mut [u64], verdict: &mut [u64; 5])
    ensures { Gives (track_outcome bytes.now table.old) verdict.new table.new }
{
    *verdict = in_order(track::track_job(bytes, table));
}

// The set job.
#[unsafe(no_mangle)]
pub extern "C" fn flangemint_set(bytes: &[u8], table: &mut [u64], verdict: &mut [u64; 5])
    ensures { Gives (set_outcome bytes.now table.old) verdict.new table.new }
{
    *verdict = in_order(set::set_job(bytes, table));
}

// A track in pieces: the first state.
#[unsafe(no_mangle)]
pub extern "C" fn flangemint_pieces_begin(numbers: &mut [u64; 24])
    ensures { StartsAnyway numbers.new }
{
    pieces::start(numbers);
}

// A track in pieces: one piece more.
#[unsafe(no_mangle)]
pub extern "C" fn flangemint_pieces_take(
    numbers: &mut [u64; 24],
    head: &mut [u8; 16],
    kept: &mut [u8; 32768],
    piece: &[u8],
)
    ensures { FeedsFrom numbers.old head.old kept.old piece.now
        numbers.new head.new kept.new }
{
    pieces::feed(numbers, head, kept, piece);
}

// An answer's seven numbers, in the order in which C finds them. No From, as for `in_order`: the edit `last_is_first` holds the order here.
fn answered_in(a: Answer) -> [u64; 7]
    ensures { result ≡ answered_in a }
{
    let v = a.verdict;
    [
        v.number,
        v.track,
        v.place,
        v.count,
        v.timescale,
        a.first,
        a.last,
    ]
}

// A track in pieces: the answer.
#[unsafe(no_mangle)]
pub extern "C" fn flangemint_pieces_answer(
    numbers: &[u64; 24],
    head: &[u8; 16],
    kept: &[u8; 32768],
    answer: &mut [u64; 7],
)
    ensures { GivesAnswer numbers.now head.now kept.now answer.new }
{
    *answer = answered_in(pieces::finish(numbers, head, kept));
}
