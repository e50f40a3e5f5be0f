// The runs of a chunk in one walk: rules 15 and 16 of them, their samples in all, and, while they are asked for, what the samples
// come to, for rules 20 to 22.
// The limit, `Stands` and `FilledRun` stand in each contract beside the bytes. One struct with them is no plainer: every clause would read `m.entry.bytes.now`,
// and every call of `fields` would take it apart again. `FilledRun` is no ghost field of `Trun` either: `again::first_sync` builds one of any bytes.
#![tactic(auto)]

ghost use Rattle.std.specs.Prelude.{◌≡◌, ◌+◌, ◌*◌, ◌≤◌, true, length, take, Ok};
ghost use Rattle.rules.specs.Limits.{byte_limit, sample_limit};
ghost use Rattle.rules.specs.Fields.{box_flags};
ghost use Rattle.rules.specs.Chunk.{run_head, stride, not_both, first_flags_of, is_sync, placed};
ghost use Rattle.boxes.specs.Stands.{Stands};
ghost use Rattle.runs.specs.Trun.{FilledRun};
ghost use Rattle.runs.specs.Runs.{runs_at, SaysDue, SmallSums, Low, sync_after, AndSamples, SaysNext, SaysRuns};

use boxes::kinds::TRUN;
use rules::{Defaults, Refusal, Rule, Spot};
use trun::Trun;

pub mod again;
pub mod layout;
mod samples;
mod trun;

// Rule 18: the samples of a chunk.
pub const SAMPLE_LIMIT: u64 = 65536;

// What the samples of runs span: their durations and sizes in all, whether no run was passed, whether the first sample, once there is
// one, is a sync sample, and rule 22 of the runs.
#[derive(Clone, Copy)]
pub struct Span {
    pub ticks: u64,
    pub bytes: u64,
    pub lead: bool,
    pub sync: bool,
    pub tiled: Rule,
}

// What runs come to: rule 16 of them, their samples in all, and what these span, as long as that is asked for.
#[derive(Clone, Copy)]
pub struct Totals {
    pub clash: Rule,
    pub samples: u64,
    pub span: Span,
}

// A run that has another form, by its place.
#[derive(Clone, Copy)]
pub struct WrongRun {
    pub place: u64,
}

// It breaks rule 15 there.
impl From<WrongRun> for Refusal {
    ghost from_gives = { λ w e. e ≡ record { number = 15; track = 0; place = w.place } };

    fn from(w: WrongRun) -> Refusal {
        Refusal::new(15, 0, w.place)
    }
}

// Rule 16, a run: first-sample flags and flags of each sample do not stand in one run.
fn not_both(flags: u32) -> bool
    ensures { result ≡ not_both flags }
{
    !(numbers::has(flags, 0x4) && numbers::has(flags, 0x400))
}

// Whether sums are asked for: they are wanted, rule 16 holds so far, and the samples are few so far.
fn due(want: bool, clash: Rule, samples: u64) -> bool
    ensures { SaysDue result want clash samples }
{
    want && clash.is_ok() && samples <= SAMPLE_LIMIT
}

// Rule 21: not the non-sync bit.
fn is_sync(flags: u32) -> bool
    ensures { result ≡ is_sync flags }
{
    !numbers::has(flags, 0x10000)
}

// What no samples span.
fn no_span() -> Span
    ensures { result ≡ record { ticks = 0; bytes = 0; lead = true; sync = true; tiled = Ok tt } }
{
    Span {
        ticks: 0,
        bytes: 0,
        lead: true,
        sync: true,
        tiled: Ok(()),
    }
}

// What samples span with those of one run more, after so many samples, where the bytes of all begin at a place.
fn and_samples(m: &[u8], run: Trun, d: Defaults, from: u64, before: u64, a: Span) -> Span
    requires filled_run { FilledRun m.now run.spot run.flags run.count × (before + run.count ≤ sample_limit) × (from ≤ byte_limit + 16) }
    requires m_len_bound { length m.now ≤ byte_limit }
    requires small_sums { SmallSums before a }
    ensures { AndSamples m.now d from before run.spot.at run.count a result }
{
    let own = run.is_placed(a.lead, m, from + a.bytes);
    let tiled = a.tiled.and(rules::must(own, 22, run.spot.at as u64));
    let sync = run.sync_after(before, a.sync, m, d);
    let sums = samples::sums_of(m, run, d);
    Span {
        ticks: a.ticks + sums.ticks,
        bytes: a.bytes + sums.bytes,
        lead: false,
        sync,
        tiled,
    }
}

// What runs come to with one more.
fn and_run(
    m: &[u8],
    r: Spot,
    want: bool,
    d: Defaults,
    from: u64,
    t: Totals,
) -> Result<Totals, WrongRun>
    requires stands { Stands m.now r × (length m.now ≤ byte_limit) × (from ≤ byte_limit + 16) }
    requires low { Low want t × (t.samples ≤ 4294967296 * byte_limit) }
    ensures { SaysNext result m.now r want d from t }
{
    let place = r.at as u64;
    let Some(run) = trun::read_trun(m, r) else {
        return Err(WrongRun { place });
    };
    let clash = t.clash.and(rules::must(not_both(run.flags), 16, place));
    let samples = t.samples + run.count as u64;
    // from here on none are asked for; the span so far handed on would copy its unused bytes with every run, a quarter of a short run's time
    if !due(want, clash, samples) {
        return Ok(Totals {
            clash,
            samples,
            span: no_span(),
        });
    }
    let span = and_samples(m, run, d, from, t.samples, t.span);
    Ok(Totals {
        clash,
        samples,
        span,
    })
}

// What the runs from a start on in a front of the `moof` come to, where the first sample's byte is at a place after the `moof` start.
pub fn walk(
    m: &[u8],
    s: &[u8],
    start: usize,
    want: bool,
    d: Defaults,
    from: u64,
) -> Result<Totals, WrongRun>
    requires m_len_bound { (length m.now ≤ byte_limit) × (from ≤ byte_limit + 16) }
    requires s_value { s.now ≡ take (length s.now) m.now }
    ensures { SaysRuns result m.now want d from (runs_at s.now start) }
{
    let mut t = Totals {
        clash: Ok(()),
        samples: 0,
        span: no_span(),
    };
    for b in boxes::along(s, start) {
        if b.kind == TRUN {
            t = and_run(m, b.spot, want, d, from, t)?;
        }
    }
    Ok(t)
}
