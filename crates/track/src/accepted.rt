// A track that keeps every rule: its fragments, room, and the boundaries, written to a lent table.
ghost use Rattle.std.specs.Prelude.{◌≡◌, ◌++◌, ◌+◌, ◌≤◌, length, drop, Ok, Err, IfOk, IfErr};
ghost use Rattle.std.proofs.lemmas.List.Edits.{sets};
ghost use Rattle.rules.specs.Jobs.{Permits};
ghost use Rattle.rules.specs.Track.{ruling, boundaries, end_list, room_of};
ghost use Rattle.rules.specs.Course.{judgement};

use crate::cursor::Fragments;
use rules::{Refusal, TrackFacts, Verdict};

// The bytes of a track that keeps every rule but room, with what is known of it.
#[derive(Clone, Copy)]
pub struct AcceptedTrack<'a> {
    pub bytes: &'a [u8],
    pub facts: TrackFacts,
    pub ghost accepted: { judgement bytes.now ≡ Ok facts },
}

// Writes the last end, if there is one, at a place of the table.
fn put_last(end: Option<u64>, t: &mut [u64], k: usize)
    requires { k + length (end_list end) ≤ length t.old }
    ensures { t.new ≡ sets t.old k (end_list end) }
{
    if let Some(e) = end {
        t[k] = e;
    }
}

impl<'a> AcceptedTrack<'a> {
    // Every rule of a track but room.
    pub fn judge(bytes: &'a [u8]) -> Result<AcceptedTrack<'a>, Refusal>
        ensures accepts { IfOk result (λ a. a.bytes.now ≡ bytes.now) }
        ensures refuses { IfErr result (λ e. ruling bytes.now ≡ Err e) }
    {
        let facts = crate::judge(bytes)?;
        Ok(AcceptedTrack { bytes, facts })
    }

    // Its fragments, from the first on.
    #[tactic(auto, using(crate::proofs::Table::accepted_known, crate::proofs::Table::known_short, crate::proofs::Table::known_sync))]
    pub fn fragments(self) -> Fragments<'a>
        ensures { (result.bytes.now ≡ self.entry.bytes.now) × (result.header ≡ self.entry.facts.header)
            × (result.plain ≡ self.entry.facts.plain) × (result.at ≡ 0) }
    {
        Fragments {
            bytes: self.bytes,
            header: self.facts.header,
            plain: self.facts.plain,
            at: 0,
        }
    }

    // Writes its boundaries, each fragment's start and the last end, at the front of the table.
    fn write_boundaries(self, t: &mut [u64])
        requires { length (boundaries self.bytes.now) ≤ length t.old }
        ensures { t.new ≡ boundaries self.entry.bytes.now ++ drop (length (boundaries self.entry.bytes.now)) t.old }
    {
        // By index and no zip over the table: the last end goes in behind the starts by its index too, so a zip is no plainer.
        for (k, fragment) in self.fragments().enumerate() {
            t[k] = fragment.start;
        }
        put_last(self.facts.end, t, self.facts.fragments as usize);
    }

    // Room, and the boundaries.
    pub fn accept(self, t: &mut [u64]) -> Verdict
        ensures { Permits room_of self.entry.bytes.now t.old result t.new }
    {
        if (t.len() as u64) <= self.facts.fragments {
            return Verdict::from(Refusal::new(23, 0, 0));
        }
        self.write_boundaries(t);
        Verdict {
            number: 0,
            track: 0,
            place: 0,
            count: self.facts.fragments,
            timescale: self.facts.header.timescale as u64,
        }
    }
}
