// Rules 16 to 22, by what was read. `MoofIn` and `BodyIn` stand in the contracts beside the bytes: no plainer in one struct, as lib.rt says.
ghost use Rattle.std.specs.Prelude.{◌≡◌, true, ◌&&◌, [], ◌+◌, ◌*◌, ◌≤◌, length, eqb};
ghost use Rattle.rules.specs.Limits.{sample_limit};
ghost use Rattle.rules.specs.Rules.{◌then◌, PlacedUpTo};
ghost use Rattle.rules.specs.Chunk.{runs_in, flagged, few, follows, opens, rule16, rule17, rule18, rule19, rule20, rule21, rule22};
ghost use Rattle.chunk.specs.Bodies.{MoofIn, BodyIn};
ghost use Rattle.runs.specs.Runs.{PassedRuns, SpansAll};
ghost use Rattle.chunk.specs.Answers.{SaysLasting, says};

use crate::bodies::{BodyValues, InMoof};
use crate::{Interval, Setting};
use rules::{Refusal, Rule};
use runs::{SAMPLE_LIMIT, Totals};

// Rule 20: the last tick, 2^63 - 1.
const TICK_LIMIT: u64 = 9223372036854775807;

// Rule 16, the flags of `tfhd`: 0x1 and 0x10000 clear, 0x20000 set.
#[tactic(auto, unfolding(rules::specs::Chunk::flagged))]
pub fn flagged(flags: u32) -> bool
    ensures { result ≡ flagged flags }
{
    !numbers::has(flags, 0x1) && !numbers::has(flags, 0x10000) && numbers::has(flags, 0x20000)
}

// Rule 18: 1 to 65,536 samples.
pub fn few(samples: u64) -> bool
    ensures { result ≡ few samples }
{
    1 <= samples && samples <= SAMPLE_LIMIT
}

// Rule 19: a start that is the previous end, if there is one.
#[tactic(auto, unfolding(rules::specs::Chunk::follows))]
pub fn follows(prev: Option<u64>, start: u64) -> bool
    ensures { result ≡ follows prev start }
{
    prev.is_none_or(|e| start == e)
}

// Rule 21: the track's first chunk opens on a sync sample, of a later one that is not asked.
#[tactic(auto, unfolding(rules::specs::Chunk::opens))]
pub fn opens(prev: Option<u64>, sync: bool) -> bool
    ensures { result ≡ opens prev sync }
{
    prev.is_some() || sync
}

// Rule 20: the end, by a start and a duration. `None` where the duration is 0 or the end over 2^63 - 1.
pub fn last_tick(start: u64, ticks: u64) -> Option<u64>
    requires { ticks ≤ 4294967295 * sample_limit }
    ensures { SaysLasting result start ticks }
{
    if ticks < 1 || TICK_LIMIT - ticks < start {
        return None;
    }
    Some(start + ticks)
}

// Whether 16 of `tfhd`, 17 and 19 hold: else no sample need be summed.
pub fn worth_summing(k: BodyValues, id: u32, prev: Option<u64>) -> bool
    ensures { result ≡ (flagged k.flags && eqb k.id id && follows prev k.start) }
{
    flagged(k.flags) && k.id == id && follows(prev, k.start)
}

// Rules 16 to 19, by what the bodies say and the runs come to.
pub fn rules_before_sums(m: &[u8], x: InMoof, k: BodyValues, t: Totals, s: Setting) -> Rule
    requires { MoofIn m.now x × BodyIn m.now s.header.defaults k × PassedRuns m.now (runs_in m.now) [] t }
    ensures value { result ≡ (rule16 m.now
        then rule17 m.now s.header.id
        then rule18 m.now
        then rule19 m.now s.prev) }
    ensures placed_up_to { PlacedUpTo (length m.now) result }
{
    rules::must(flagged(k.flags), 16, x.tfhd.at as u64)
        .and(t.clash)
        .and(rules::must(k.id == s.header.id, 17, x.tfhd.at as u64))
        .and(rules::must(few(t.samples), 18, x.traf.at as u64))
        .and(rules::must(follows(s.prev, k.start), 19, x.tfdt.at as u64))
}

// Rules 20 to 22, by what the samples span, where their number is right.
pub fn rules_of_sums(
    m: &[u8],
    x: InMoof,
    k: BodyValues,
    t: Totals,
    s: Setting,
) -> Result<Interval, Refusal>
    requires moof_in { MoofIn m.now x × BodyIn m.now s.header.defaults k × (few t.samples ≡ true) }
    requires spans_all { SpansAll m.now k.own (length m.now + s.head) (runs_in m.now) [] t.samples t.span }
    ensures { says result (rule20 m.now s.header.defaults
        then rule21 m.now s.header.defaults s.prev
        then rule22 m.now s.header.defaults s.head s.payload) m.now s.header.defaults }
{
    let place = x.run.at as u64;
    let a = t.span;
    let Some(end) = last_tick(k.start, a.ticks) else {
        return Err(Refusal::new(20, 0, place));
    };
    rules::must(opens(s.prev, a.sync), 21, place)
        .and(a.tiled)
        .and(rules::must(a.bytes == s.payload, 22, m.len() as u64))?;
    Ok(Interval {
        start: k.start,
        end,
        sync: a.sync,
    })
}
