// Where the fields of a run stand, by its flags.
ghost use Rattle.std.specs.Prelude.{◌≡◌, ◌<◌, ◌≤◌};
ghost use Rattle.rules.specs.Chunk.{bytes_for, run_head, stride};

// n bytes where a flag is set.
#[tactic(auto, unfolding(rules::specs::Chunk::bytes_for))]
pub fn bytes_for(n: usize, flags: u32, w: u32) -> usize
    requires { 0 < w }
    ensures value { result ≡ bytes_for n flags w }
    ensures upper_bound { result ≤ n }
{
    if numbers::has(flags, w) { n } else { 0 }
}

// The bytes of a run before its samples' fields.
#[tactic(auto, unfolding(rules::specs::Chunk::run_head))]
pub fn run_head(flags: u32) -> usize
    ensures value { result ≡ run_head flags }
    ensures upper_bound { result ≤ 16 }
{
    8 + bytes_for(4, flags, 0x1) + bytes_for(4, flags, 0x4)
}

// The bytes of a sample's fields in a run.
#[tactic(auto, unfolding(rules::specs::Chunk::stride))]
pub fn stride(flags: u32) -> usize
    ensures value { result ≡ stride flags }
    ensures upper_bound { result ≤ 16 }
{
    let first = bytes_for(4, flags, 0x100) + bytes_for(4, flags, 0x200);
    first + bytes_for(4, flags, 0x400) + bytes_for(4, flags, 0x800)
}
