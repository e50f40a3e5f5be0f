// One cursor over the fragments of an accepted track.
ghost use Rattle.std.specs.Prelude.{◌≡◌, ◌-◌, ◌≤◌, true, length, OnSome, IfSome};
ghost use Rattle.std.specs.Iterator.{at_most};
ghost use Rattle.rules.specs.Limits.{byte_limit};
ghost use Rattle.rules.specs.Chunk.{traf_in, sync_in};
ghost use Rattle.boxes.specs.Stands.{StandsAt};
ghost use Rattle.track.specs.Cursor.{EachSync, IsNextFragment};

use boxes::kinds::MOOF;
use chunk::again;
use rules::{Defaults, Header, Spot};

// A fragment: the place of its first `moof`, where the walk goes on behind that, and its start. It ends where the next one starts, the last one at
// the track's last end.
#[derive(Clone, Copy)]
pub struct FragmentAt {
    pub place: usize,
    pub next: usize,
    pub start: u64,
}

// The fragments that begin in a track from a place on, by what the header tells and whether it is known that each chunk begins one.
#[derive(Clone, Copy)]
pub struct Fragments<'a> {
    pub bytes: &'a [u8],
    pub header: Header,
    pub plain: bool,
    pub at: usize,
    pub ghost small: { length bytes.now ≤ byte_limit },
    pub ghost each_sync: { EachSync plain bytes.now header at },
}

// Whether a chunk begins a fragment behind others, by the bytes of its `moof`; where it is known that all do, nothing is read.
fn leads(m: &[u8], traf: Spot, d: Defaults, plain: bool) -> bool
    requires stands_at { StandsAt m.now (traf_in m.now) traf × (length m.now ≤ byte_limit) }
    requires d_value { plain ≡ true → sync_in m.now d ≡ true }
    ensures { result ≡ sync_in m.now d }
{
    plain || again::sync_in(m, traf, d)
}

// The next fragment that begins from a place on, by what the header tells and whether it is known that each chunk begins one.
pub fn next_fragment(s: &[u8], at: usize, h: Header, plain: bool) -> Option<FragmentAt>
    requires { (length s.now ≤ byte_limit) × EachSync plain s.now h at }
    ensures { IsNextFragment result s.now h at }
{
    for b in boxes::along(s, at) {
        if b.kind == MOOF {
            let place = b.spot.at;
            let next = place + b.spot.size;
            let m = &s[place..next];
            let traf = again::traf_in(m, b.spot.head);
            if leads(m, traf, h.defaults, plain) {
                let start = again::start_in(m, traf);
                return Some(FragmentAt { place, next, start });
            }
        }
    }
    None
}

impl<'a> Iterator for Fragments<'a> {
    type Item = FragmentAt;

    ghost remaining = { λ s. at_most (length s.bytes.now - s.at) };

    ghost next_gives = { λ s r t. IsNextFragment r s.bytes.now s.header s.at
        × (t.bytes.now ≡ s.bytes.now) × (t.header ≡ s.header) × (t.plain ≡ s.plain) × IfSome r (λ f. t.at ≡ f.next) };

    fn next(&mut self) -> Option<FragmentAt> {
        let fragment = next_fragment(self.bytes, self.at, self.header, self.plain)?;
        self.at = fragment.next;
        Some(fragment)
    }
}
