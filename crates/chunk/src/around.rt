// What a chunk is judged by besides the bytes of its `moof`.
ghost use Rattle.std.specs.Prelude.{◌≤◌};

use rules::Header;

// The header length and the payload length of a chunk's `mdat`, what the track's header tells, and the previous end.
#[derive(Clone, Copy)]
pub struct Setting {
    pub head: u64,
    pub payload: u64,
    pub header: Header,
    pub prev: Option<u64>,
    pub ghost head_low: { head ≤ 16 },
}
