// A second look at runs, whatever they hold: whether the first sample of all is a sync sample. A run's first flags are read by the reader of the first look,
// `Trun::first_flags`; the rest stays beside it, no plainer as one: the first look asks that a run's count is there and reads it without a test.
ghost use Rattle.std.specs.Prelude.{◌≡◌, ◌≤◌, length, take};
ghost use Rattle.rules.specs.Limits.{byte_limit};
ghost use Rattle.rules.specs.Chunk.{first_flags, is_sync};
ghost use Rattle.runs.specs.Runs.{runs_at};

use crate::is_sync;
use crate::trun::Trun;
use boxes::kinds::TRUN;
use numbers::{BigEndian, U24};
use rules::Defaults;

// Whether the first sample of the runs from a start on in a front of the `moof` is a sync sample: that of the first run that has one.
pub fn first_sync(m: &[u8], s: &[u8], start: usize, d: Defaults) -> bool
    requires { (length m.now ≤ byte_limit) × (s.now ≡ take (length s.now) m.now) }
    ensures { result ≡ is_sync (first_flags m.now d (runs_at s.now start)) }
{
    for b in boxes::along(s, start) {
        if b.kind == TRUN {
            let body = b.spot.at + b.spot.head;
            let run = Trun {
                spot: b.spot,
                flags: U24::read(m, body + 1).value,
                count: u32::read(m, body + 4),
            };
            if run.count != 0 {
                return is_sync(run.first_flags(m, d));
            }
        }
    }
    true
}
