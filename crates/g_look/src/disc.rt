//! The directory that a disc represents.
ghost use Rattle.std.specs.Prelude.{◌≡◌, ◌⊎◌, ◌<◌, Err, IfErr, IfOk, OnErr};
ghost use Rattle.std.specs.Option.{ForSome};
ghost use Rattle.g_disc.specs.Disc.{ReadsByCause};
ghost use Rattle.g_slots.specs.Layout.{GateNames};
ghost use Rattle.g_dirs.specs.Directory.{Directory};
ghost use Rattle.g_dirs.specs.Image.{StandsFor};
ghost use Rattle.g_look.specs.Standing.{IsSound, IsStanding, directory_in};

use crate::LookFault;
use g_dirs::{Dirs, DirsFault, read_dirs};
use g_disc::Disc;
use g_entry::{Format, decode_head_in};
use g_slots::{Side, Slots};
use std::alloc::Global;

/// The current slot, and the directory there with its format, if the disc represents one.
#[derive(Drop)]
pub struct Standing {
    pub side: Side,
    pub dirs: Option<(Format, Dirs)>,
}

/// Reads the directory that the disc represents. `DiscUnread`, `NoMemory`.
pub fn see_disc<D: Disc>(alloc: Global, disc: &mut D) -> Result<Standing, LookFault>
    requires size { 2177 < (D.state disc.old).size }
    ensures standing { IfOk result (IsStanding (D.state disc.old).size (D.state disc.old).held) }
    ensures reads { ReadsByCause (result ≡ Err LookFault.DiscUnread) (D.state disc.old) (D.state disc.new) }
    ensures only { OnErr result ((result ≡ Err LookFault.DiscUnread) ⊎ (result ≡ Err LookFault.NoMemory)) }
{
    let slots = match Slots::find(disc) {
        Ok(slots) => slots,
        Err(_) => return Err(LookFault::DiscUnread),
    };
    match read_dirs(alloc, disc, &slots) {
        Ok(dirs) => match see_format(disc, &slots) {
            Ok(format) => Ok(Standing {
                side: slots.side(),
                dirs: Some((format, dirs)),
            }),
            Err(fault) => Err(fault),
        },
        Err(DirsFault::NoFilestore) => Ok(Standing {
            side: slots.side(),
            dirs: None,
        }),
        Err(DirsFault::ReadFault) => Err(LookFault::DiscUnread),
        Err(_) => Err(LookFault::NoMemory),
    }
}

/// The format of the current slot, by its head.
fn see_format<D: Disc>(disc: &mut D, slots: &Slots) -> Result<Format, LookFault>
    requires size { 2177 < (D.state disc.old).size }
    requires gate { GateNames slots.now (D.state disc.old).held }
    ensures format { IfOk result (λ format. ForSome (D.state disc.old).held
        (λ blocks. (d : Directory) → (is : StandsFor blocks d) → is.format ≡ format)) }
    ensures reads { ReadsByCause (result ≡ Err LookFault.DiscUnread) (D.state disc.old) (D.state disc.new) }
    ensures only { OnErr result (result ≡ Err LookFault.DiscUnread) }
{
    let mut block = [0; 512];
    match slots.read(disc, 0, &mut block) {
        Ok(()) => {}
        Err(_) => return Err(LookFault::DiscUnread),
    }
    match decode_head_in(Format::Two, &block) {
        Some(_) => Ok(Format::Two),
        None => Ok(Format::One),
    }
}

/// The directory that the disc represents. `NoFilestore` if it represents none; `DiscUnread`, `NoMemory`.
pub(crate) fn see_directory<D: Disc>(alloc: Global, disc: &mut D) -> Result<Dirs, LookFault>
    requires size { 2177 < (D.state disc.old).size }
    ensures stands { IfOk result (λ dirs. ForSome (D.state disc.old).held (λ blocks. StandsFor blocks (directory_in dirs))) }
    ensures sound { IfOk result (IsSound (D.state disc.old).size) }
    ensures none { result ≡ Err LookFault.NoFilestore → ForSome (D.state disc.old).held (λ blocks. (d : Directory) → StandsFor blocks d → ⊥) }
    ensures reads { ReadsByCause (result ≡ Err LookFault.DiscUnread) (D.state disc.old) (D.state disc.new) }
    ensures only { IfErr result (λ e. (e ≡ LookFault.NoFilestore) ⊎ ((e ≡ LookFault.DiscUnread) ⊎ (e ≡ LookFault.NoMemory))) }
{
    let slots = match Slots::find(disc) {
        Ok(slots) => slots,
        Err(_) => return Err(LookFault::DiscUnread),
    };
    match read_dirs(alloc, disc, &slots) {
        Ok(dirs) => Ok(dirs),
        Err(DirsFault::NoFilestore) => Err(LookFault::NoFilestore),
        Err(DirsFault::ReadFault) => Err(LookFault::DiscUnread),
        Err(_) => Err(LookFault::NoMemory),
    }
}
