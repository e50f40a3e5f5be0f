// Rules 25 to 28: a track beside track 0.
ghost use Rattle.std.specs.Prelude.{◌≡◌};
ghost use Rattle.rules.specs.Track.{fragment_count};
ghost use Rattle.rules.specs.Set.{rule28, agrees};

use rules::{Rule, must};
use track::accepted::AcceptedTrack;

// Rule 28: both tracks' fragments side by side; each boundary is the start of a fragment, the last one an end.
fn same_boundaries(zeroth: AcceptedTrack<'_>, track: AcceptedTrack<'_>) -> Rule
    requires { fragment_count track.bytes.now ≡ fragment_count zeroth.bytes.now }
    ensures { result ≡ rule28 zeroth.entry.bytes.now track.entry.bytes.now }
{
    let mut last = 0;
    for (fragment0, fragment) in zeroth.fragments().zip(track.fragments()) {
        must(fragment.start == fragment0.start, 28, fragment.place as u64)?;
        last = fragment.place;
    }
    must(track.facts.end == zeroth.facts.end, 28, last as u64)
}

// Rules 25 to 28 of a track beside track 0, both accepted by themselves.
pub fn agrees(zeroth: AcceptedTrack<'_>, track: AcceptedTrack<'_>) -> Rule
    ensures { result ≡ agrees zeroth.entry.bytes.now track.entry.bytes.now }
{
    let facts0 = zeroth.facts;
    let facts = track.facts;
    must(
        facts.header.handler == facts0.header.handler,
        25,
        facts.hdlr,
    )?;
    must(
        facts.header.timescale == facts0.header.timescale,
        26,
        facts.mdhd,
    )?;
    must(
        facts.fragments == facts0.fragments,
        27,
        track.bytes.len() as u64,
    )?;
    same_boundaries(zeroth, track)
}
