//! The file of a new image: zeros.
ghost use Rattle.std.specs.Prelude.{◌≡◌, ◌*◌, ◌^◌, ◌<◌, ◌≤◌, IfOk, OnOk, length, replicate, true};
ghost use Rattle.std.specs.Option.{ForSome};
ghost use Rattle.g_files.specs.Bytes.{IsBlank};

use crate::raw::RawFile;
use std::io::{self, Error, ErrorKind};

/// How many bytes one read asks for.
const PIECE: usize = 4_096;

/// Extends a file to `blocks` blocks of zeros. `AlreadyExists` unless the file has only zeros, if anything, and no more of
/// them; then it is unchanged.
pub fn make_blank<F: RawFile>(file: &mut F, blocks: u32) -> io::Result<()>
    ensures blank { OnOk result (ForSome (F.content file.new) (λ bytes. bytes ≡ replicate (512 * blocks) 0)) }
    ensures kept { (ForSome (F.content file.old) (IsBlank (512 * blocks)) → ⊥) → F.content file.new ≡ F.content file.old }
{
    let bytes = 512 * u64::from(blocks);
    if !is_blank(file, bytes)? {
        return Err(Error::from(ErrorKind::AlreadyExists));
    }
    file.set_len(bytes)
}

/// Whether the file has only zeros, if anything, and at most `most`.
fn is_blank<F: RawFile>(file: &mut F, most: u64) -> io::Result<bool>
    requires { most < 2 ^ 62 }
    ensures blank { IfOk result (λ is. is ≡ true → ForSome (F.content file.old) (IsBlank most)) }
    ensures same { F.content file.new ≡ F.content file.old }
{
    let bytes = file.len()?;
    if bytes > most {
        return Ok(false);
    }
    let mut piece = [0; PIECE];
    let mut at = 0;
    for _read in 0..u64::MAX {
        if at >= bytes {
            return Ok(true);
        }
        let count = file.read_at(&mut piece, at)?;
        if count == 0 {
            return Ok(true);
        }
        if !are_zeros(&piece[..count]) {
            return Ok(false);
        }
        at += count as u64;
    }
    Err(Error::from(ErrorKind::Interrupted))
}

/// Whether these bytes, at most `PIECE` of them, are zeros.
fn are_zeros(piece: &[u8]) -> bool
    requires { length piece.now ≤ 4096 }
    ensures { result ≡ true → piece.now ≡ replicate (length piece.now) 0 }
{
    piece == &[0; PIECE][..piece.len()]
}
