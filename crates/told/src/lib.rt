// What the programs say on standard error where standard output can't be written.
#![tactic(auto)]

ghost use Rattle.std.specs.Prelude.{◌≢◌, ◌↔◌, IsTrue};
ghost use Rattle.std.specs.IoError.{error_kind};
ghost use Rattle.std.specs.declared.io.ErrorKind.TheVariants.{BrokenPipe};

use std::io;

// Says why standard output can't be written; of a reader that has left nothing. Answers whether there was something to say.
pub fn say_unwritten(rt: &impl Eprint, e: io::Error) -> bool
    ensures { IsTrue result ↔ error_kind e ≢ BrokenPipe }
{
    if e.kind() == io::ErrorKind::BrokenPipe {
        return false;
    }
    let _ = eprintln!(rt; "standard output: {e}");
    true
}
