//! The warning about a RESTORE, on standard error.
ghost use Rattle.std.specs.Prelude.{◌≡◌, ◌<◌};

use g_devices::HostOutput;
use g_disc::Disc;
use g_files::StdSink;
use g_outlook::tell_outlook;
use g_tape::Tapes;

/// Warns if a RESTORE from the rack would be refused or would lack a dump (docs/MANUAL.md, "A reel that is lost"). Disc and rack are only read, and no
/// reel is mounted afterwards. If something can't be read, or memory runs out, there is no warning.
pub(crate) fn warn_of_restore<D: Disc, T: Tapes>(rt: &HostRuntime, disc: &mut D, tapes: &mut T)
    requires { 2177 < (D.state disc.old).size }
    ensures { (D.state disc.new).size ≡ (D.state disc.old).size }
{
    let mut errors = StdSink::new(HostOutput::new(rt.stderr()));
    let _told = tell_outlook(rt.alloc(), &mut errors, disc, tapes);
}
