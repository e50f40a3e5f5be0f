// One chunk: rules 14 to 22 over the bytes of its `moof`.
// `WholeBox`, the limit, `MoofIn` and `BodyIn` stand in each contract beside the bytes. One struct with them is no plainer: every clause would read
// `m.entry.bytes.now`, and every call of `fields`, `counts` and `runs` would take it apart again.
#![tactic(auto)]

ghost use Rattle.std.specs.Prelude.{◌≡◌, ◌≤◌, length};
ghost use Rattle.rules.specs.Limits.{byte_limit};
ghost use Rattle.rules.specs.Counts.{counts};
ghost use Rattle.rules.specs.Chunk.{entries_in_moof, mfhd_in, traf_in, runs_in, rule14, rule15, rule15runs};
ghost use Rattle.boxes.specs.Stands.{WholeBox, StandsAt};
ghost use Rattle.chunk.specs.Bodies.{MoofIn, BodyIn};
ghost use Rattle.chunk.specs.Answers.{SaysChunk};

pub use around::Setting;
use bodies::{BodyValues, InMoof};
use boxes::kinds::{MFHD, TFDT, TFHD, TRAF, TRUN};
use fields::misformed;
use rules::{Entry, Refusal, Spot};

pub mod again;
mod around;
mod bodies;
mod layout;
mod values;

// A good chunk's start and end, and whether its first sample is a sync sample.
#[derive(Clone, Copy)]
pub struct Interval {
    pub start: u64,
    pub end: u64,
    pub sync: bool,
}

// The runs of a chunk whose other bodies are read, then rules 16 to 22.
fn settle(m: &[u8], x: InMoof, k: BodyValues, s: Setting) -> Result<Interval, Refusal>
    requires m_len_bound { (length m.now ≤ byte_limit) × MoofIn m.now x × BodyIn m.now s.header.defaults k }
    requires m_value { (rule14 m.now ≡ Ok tt) × (rule15 m.now ≡ rule15runs m.now (runs_in m.now)) }
    ensures { SaysChunk result m.now s }
{
    let end = x.traf.at + x.traf.size;
    let worth = values::worth_summing(k, s.header.id, s.prev);
    let all = runs::walk(
        m,
        &m[..end],
        x.run.at,
        worth,
        k.own,
        m.len() as u64 + s.head,
    )?;
    values::rules_before_sums(m, x, k, all, s)?;
    values::rules_of_sums(m, x, k, all, s)
}

// The bodies before the runs of a chunk whose boxes stand there, then the rest.
fn read(m: &[u8], x: InMoof, s: Setting) -> Result<Interval, Refusal>
    requires { (length m.now ≤ byte_limit) × MoofIn m.now x × (rule14 m.now ≡ Ok tt) }
    ensures { SaysChunk result m.now s }
{
    let Some(()) = bodies::read_mfhd(m, x.mfhd) else {
        return Err(misformed(15, x.mfhd));
    };
    let Some(tfhd) = bodies::read_tfhd(m, x.tfhd, s.header.defaults) else {
        return Err(misformed(15, x.tfhd));
    };
    let Some(start) = bodies::read_tfdt(m, x.tfdt) else {
        return Err(misformed(15, x.tfdt));
    };
    let k = BodyValues {
        flags: tfhd.flags,
        id: tfhd.id,
        start,
        own: tfhd.own,
    };
    settle(m, x, k, s)
}

// The counts in `traf`, where those in `moof` are right, then the rest.
fn in_traf(m: &[u8], mfhd: Spot, traf: Spot, s: Setting) -> Result<Interval, Refusal>
    requires m_len_bound { (length m.now ≤ byte_limit) × (counts 14 m.now 0 entries_in_moof ≡ Ok tt) }
    requires stands_at { StandsAt m.now (mfhd_in m.now) mfhd × StandsAt m.now (traf_in m.now) traf }
    ensures { SaysChunk result m.now s }
{
    let some = Entry::OneOrMore(TRUN);
    let seen = counts::count_boxes(14, m, traf, Entry::One(TFHD), Entry::One(TFDT), some);
    seen.rule?;
    let x = InMoof {
        mfhd,
        traf,
        tfhd: seen.a.first,
        tfdt: seen.b.first,
        run: seen.c.first,
    };
    read(m, x, s)
}

// Rules 14 to 22 of the chunk whose `moof` has the bytes m, with the length of its header. Where one breaks, its place is one in
// those bytes, or their end.
pub fn check_chunk(m: &[u8], moof: usize, s: Setting) -> Result<Interval, Refusal>
    requires { WholeBox m.now moof × (length m.now ≤ byte_limit) }
    ensures { SaysChunk result m.now s }
{
    let whole = Spot {
        at: 0,
        head: moof,
        size: m.len(),
    };
    let none = Entry::Nothing;
    let seen = counts::count_boxes(14, m, whole, Entry::One(MFHD), Entry::One(TRAF), none);
    seen.rule?;
    in_traf(m, seen.a.first, seen.b.first, s)
}
