// Rule 15: the body of a run; and what it says of the first sample and of where the bytes begin.
// `Stands` and `FilledRun` stand in each contract, as lib.rt says.
ghost use Rattle.std.specs.Prelude.{◌≡◌, ◌+◌, ◌≤◌, length};
ghost use Rattle.rules.specs.Limits.{byte_limit};
ghost use Rattle.rules.specs.Fields.{box_flags};
ghost use Rattle.rules.specs.Chunk.{run_head, first_flags_of, placed};
ghost use Rattle.boxes.specs.Stands.{Stands};
ghost use Rattle.runs.specs.Runs.{sync_after};
ghost use Rattle.runs.specs.Trun.{FilledRun, SaysTrun};

use crate::{is_sync, layout};
use numbers::BigEndian;
use rules::{Defaults, Spot};

// A `trun`: where it stands, its flags and its samples.
#[derive(Clone, Copy)]
pub struct Trun {
    pub spot: Spot,
    pub flags: u32,
    pub count: u32,
}

impl Trun {
    // The flags of the first sample, wherever they stand. Inline in both callers: a call in the walk takes 7 % more instructions a run.
    #[inline(always)]
    #[tactic(auto, unfolding(rules::specs::Chunk::first_flags_of, rules::specs::Fields::field, rules::specs::Chunk::sample_at))]
    pub fn first_flags(self, m: &[u8], d: Defaults) -> u32
        requires { Stands m.now self.spot × (self.flags ≡ box_flags m.now self.spot.at) × (length m.now ≤ byte_limit) }
        ensures { result ≡ first_flags_of m.now d self.spot.at }
    {
        let body = self.spot.at + self.spot.head;
        if numbers::has(self.flags, 0x4) { // first-sample flags stand before all
            let k = 8 + layout::bytes_for(4, self.flags, 0x1);
            return u32::read(m, body + k);
        }
        if numbers::has(self.flags, 0x400) {
            let ticks = layout::run_head(self.flags) + layout::bytes_for(4, self.flags, 0x100);
            let k = ticks + layout::bytes_for(4, self.flags, 0x200);
            return u32::read(m, body + k);
        }
        d.flags
    }

    // Whether the first sample is a sync sample, after n samples and this run: the run's, where there was none before and is one in it.
    pub fn sync_after(self, n: u64, sync: bool, m: &[u8], d: Defaults) -> bool
        requires { FilledRun m.now self.spot self.flags self.count × (length m.now ≤ byte_limit) }
        ensures { result ≡ sync_after n self.count sync m.now d self.spot.at }
    {
        if n != 0 || self.count == 0 {
            return sync;
        }
        is_sync(self.first_flags(m, d))
    }

    // Rule 22: the first run carries an offset, equal to the place e; a later one none, or one equal to it.
    pub fn is_placed(self, first: bool, m: &[u8], e: u64) -> bool
        requires { FilledRun m.now self.spot self.flags self.count }
        ensures { result ≡ placed first m.now self.spot.at e }
    {
        if numbers::has(self.flags, 0x1) {
            let offset = numbers::signed(fields::word(m, self.spot, 8));
            return numbers::is_place(offset, e);
        }
        !first
    }
}

// A `trun`: version 0 or 1, sized by its flags and its samples. `None` where it has another form.
pub fn read_trun(m: &[u8], r: Spot) -> Option<Trun>
    requires { Stands m.now r }
    ensures { SaysTrun result m.now r }
{
    if r.size - r.head < 8 {
        return None;
    }
    let flags = fields::flags(m, r);
    let count = fields::word(m, r, 4);
    let own = layout::stride(flags) * count as usize;
    let size = 8 + layout::run_head(flags) + own;
    fields::versioned(m, r, size, size)?;
    Some(Trun {
        spot: r,
        flags,
        count,
    })
}
