//! The reels of a rack that is being opened, in rising serial.
ghost use Rattle.std.specs.Prelude.{◌≡◌, ◌<◌, ◌↔◌, ◌++◌, [], ◌∷◌, All, IsTrue, OnOk, map};
ghost use Rattle.g_files.specs.FileReel.{reel_of};
ghost use Rattle.g_tape.specs.Rack.{AreReels};

use crate::file_reel::FileReel;
use crate::raw::RawFile;
use g_base::MAX_REELS;
use std::io::{self, Error, ErrorKind};

/// Appends a reel to those of a rack. `InvalidData` if there are 16 already or one has a serial as great.
pub fn push_reel<F: RawFile + Drop>(
    reels: &mut Vec<FileReel<F>>,
    reel: FileReel<F>,
) -> io::Result<()>
    requires rack { AreReels (map reel_of reels.old.items) }
    ensures rack { OnOk result (AreReels (map reel_of reels.new.items)) }
    ensures last { OnOk result (reels.new.items ≡ reels.old.items ++ reel ∷ []) }
{
    if reels.len() >= MAX_REELS || !is_above(reel.state().serial(), reels) {
        return Err(Error::from(ErrorKind::InvalidData));
    }
    reels.push(reel)?;
    Ok(())
}

/// Whether the serial is above those of all these reels.
fn is_above<F: RawFile + Drop>(serial: u32, reels: &[FileReel<F>]) -> bool
    ensures { IsTrue result ↔ All (λ reel. (reel_of reel).serial < serial) reels.now }
{
    reels.iter().all(|reel| reel.state().serial() < serial)
}
