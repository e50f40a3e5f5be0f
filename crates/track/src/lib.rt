// The track check: every rule over one slice, then room, with the boundaries written to a lent table.
#![tactic(auto)]

ghost use Rattle.std.specs.Prelude.{◌≡◌};
ghost use Rattle.rules.specs.Jobs.{Permits};
ghost use Rattle.rules.specs.Track.{track_outcome};
ghost use Rattle.rules.specs.Course.{judgement};

use accepted::AcceptedTrack;
use framing::{BYTE_LIMIT, Past};
use rules::{Course, Judged, Reached, Spot, Verdict, must};

pub mod accepted;
pub mod course;
pub mod cursor;

// Every rule of a track but room, in one walk along the top level.
pub fn judge(s: &[u8]) -> Judged
    ensures { result ≡ judgement s.now }
{
    must(s.len() <= BYTE_LIMIT, 1, 0)?;
    let mut at = 0;
    let mut count = 0;
    let mut course: Course = Ok(Reached::Start);
    while let Some(past) = framing::top_box(s, at, count)? {
        let Past {
            head,
            size,
            kind,
            boxes,
        } = past;
        let next = at + size;
        if !course::passes(course, kind) {
            let from = course::waits_from(course, at);
            let b = Spot { at, head, size };
            course = course::and_box(&s[at..next], &s[from..at], course, b, kind);
        }
        at = next;
        count = boxes;
    }
    course::course_end(s.len(), course)
}

// The track job: every rule, then room, and the boundaries.
pub fn track_job(s: &[u8], t: &mut [u64]) -> Verdict
    ensures { Permits track_outcome s.now t.old result t.new }
{
    match AcceptedTrack::judge(s) {
        Ok(track) => track.accept(t),
        Err(e) => Verdict::from(e),
    }
}
