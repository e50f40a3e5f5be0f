// The set check: the bundle framed whole, each track by itself, each beside track 0, then room.
#![tactic(auto)]

ghost use Rattle.std.specs.Prelude.{◌≡◌, ◌+◌, ◌≤◌, length, Ok, Err, IfOk, IfErr};
ghost use Rattle.rules.specs.Rules.{◌then◌, of_track};
ghost use Rattle.rules.specs.Bundle.{tracks};
ghost use Rattle.rules.specs.Track.{ruling};
ghost use Rattle.rules.specs.Set.{track0, agrees, bundle_ruling, set_outcome};
ghost use Rattle.rules.specs.Jobs.{Permits};
ghost use Rattle.set.specs.Says.{all_of};

use framing::BYTE_LIMIT;
use rules::{Mark, Refusal, Rule, Verdict, must};
use track::accepted::AcceptedTrack;

pub mod agree;

// A track by itself, as the k-th of a set.
fn judge_member(s: &[u8], k: u64) -> Result<AcceptedTrack<'_>, Refusal>
    ensures accepts { IfOk result (λ a. a.bytes.now ≡ s.now) }
    ensures refuses { IfErr result (λ e. of_track k (ruling s.now) ≡ Err e) }
{
    rules::of_track(k, AcceptedTrack::judge(s))
}

// What was broken before a track, else what it breaks beside track 0.
fn also(sofar: Rule, k: u64, zeroth: AcceptedTrack<'_>, track: AcceptedTrack<'_>) -> Rule
    ensures { result ≡ (sofar then of_track k (agrees zeroth.entry.bytes.now track.entry.bytes.now)) }
{
    sofar?;
    rules::of_track(k, agree::agrees(zeroth, track))
}

// The tracks after track 0, from a place of the bundle on: each by itself, then each beside track 0.
fn others(b: &[u8], from: usize, zeroth: AcceptedTrack<'_>) -> Rule
    requires { from ≤ length b.now }
    ensures { result ≡ all_of b.now zeroth.entry.bytes.now from }
{
    let mut at = from;
    let mut sofar: Rule = Ok(());
    for k in 1..bundle::RECORD_LIMIT {
        let Mark::Track(n) = bundle::record_at(b, at) else {
            return sofar;
        };
        let end = at + 6 + n;
        let track = judge_member(&b[at + 6..end], k)?;
        sofar = also(sofar, k, zeroth, track);
        at = end;
    }
    sofar
}

// Every rule of a bundle but room: framed whole, every track, every track beside track 0, which is what is accepted.
fn judge_set(b: &[u8]) -> Result<AcceptedTrack<'_>, Refusal>
    ensures accepts { IfOk result (λ a. (bundle_ruling b.now ≡ Ok tt) × (a.bytes.now ≡ track0 (tracks b.now))) }
    ensures refuses { IfErr result (λ e. bundle_ruling b.now ≡ Err e) }
{
    must(b.len() <= BYTE_LIMIT, 1, 0)?;
    bundle::frame_records(b)?;
    let Mark::Track(n) = bundle::record_at(b, 0) else {
        return Err(Refusal::new(24, 0, 0));
    };
    let end = 6 + n;
    let zeroth = judge_member(&b[6..end], 0)?;
    others(b, end, zeroth)?;
    Ok(zeroth)
}

// The set job: the bundle framed whole, every track, every track beside track 0, then room, and the boundaries.
pub fn set_job(b: &[u8], t: &mut [u64]) -> Verdict
    ensures { Permits set_outcome b.now t.old result t.new }
{
    match judge_set(b) {
        Ok(zeroth) => zeroth.accept(t),
        Err(e) => Verdict::from(e),
    }
}
