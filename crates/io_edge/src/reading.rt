//! A file read whole.

ghost use Rattle.std.specs.Prelude.{◌≡◌, ◌≤◌, ◌<◌, ◌+◌, ◌^◌, ◌⊎◌, length, IfOk, IfSome, OnOk, vec_len, Err, Some};
ghost use Rattle.std.specs.Io.KnownBytes.{IsAtEnd};
ghost use Rattle.io_edge.specs.Faults.{Rose};
ghost use Rattle.io_edge.specs.Shelves.{HasTaken, IsLonger, Lacks};

use crate::{Failed, NoMemory, Shelf};
use std::alloc::{AllocError, Global};

/// Why a file wasn't read whole.
#[derive(Clone, Copy)]
pub enum ReadRefusal {
    /// The file is missing, or the outside failed.
    ReadFault,
    /// The file is longer than the limit.
    TooLong,
    /// Memory was refused.
    NoMemory,
}

/// How many bytes are asked for at once: 64 KiB.
const PIECE: usize = 65536;

/// All bytes of the file of that name, of which there are at most `limit`.
///
/// Where the shelf tells what it holds, `Ok` gives the file's bytes, of which none is left, and
/// `TooLong` comes for a longer file alone, of which one byte more than the limit was taken. `ReadFault` comes only where the
/// shelf's count of faults rose, or where it tells that it lacks the file.
pub fn read_all<S: Shelf>(
    alloc: Global,
    shelf: &mut S,
    name: &str,
    limit: u32,
) -> Result<Vec<u8>, ReadRefusal>
    ensures same_files { S.holds shelf.new ≡ S.holds shelf.old }
    ensures later { S.faults shelf.old ≤ S.faults shelf.new }

    ensures whole { IfOk result (λ v. IfSome (S.holds shelf.old) (λ files. files name.now ≡ Some v.items)) }
    ensures short { IfOk result (λ v. vec_len v ≤ limit) }
    ensures ended { OnOk result (IsAtEnd (S.left shelf.new)) }

    ensures long { result ≡ Err ReadRefusal.TooLong → IfSome (S.holds shelf.old) (λ files. IsLonger (files name.now) limit) }
    ensures one_more { result ≡ Err ReadRefusal.TooLong → IfSome (S.holds shelf.old) (λ files. HasTaken (files name.now) (S.left shelf.new) (limit + 1)) }
    ensures fault { result ≡ Err ReadRefusal.ReadFault → Rose (S.faults shelf.old) (S.faults shelf.new) ⊎ Lacks (S.holds shelf.old) name.now }
{
    if shelf.open_file(name).is_err() {
        return Err(ReadRefusal::ReadFault);
    }
    match piece_buffer(alloc) {
        Err(AllocError) => Err(ReadRefusal::NoMemory),
        Ok(mut piece) => read_open(alloc, shelf, piece.as_mut_slice(), limit),
    }
}

/// The buffer that each piece is read into.
fn piece_buffer(alloc: Global) -> Result<Vec<u8>, NoMemory>
    ensures { IfOk result (λ v. vec_len v ≡ PIECE) }
{
    vec![in alloc; 0; PIECE]
}

/// All bytes that are left of the open file, read piece by piece. Each turn takes at least one byte
/// or ends the loop, whatever the shelf tells.
fn read_open<S: Shelf>(
    alloc: Global,
    shelf: &mut S,
    piece: &mut [u8],
    limit: u32,
) -> Result<Vec<u8>, ReadRefusal>
    requires { 0 < length piece.old }
    ensures same_files { S.holds shelf.new ≡ S.holds shelf.old }
    ensures later { S.faults shelf.old ≤ S.faults shelf.new }

    ensures whole { IfOk result (λ v. IfSome (S.left shelf.old) (λ bytes. bytes ≡ v.items)) }
    ensures short { IfOk result (λ v. vec_len v ≤ limit) }
    ensures ended { OnOk result (IsAtEnd (S.left shelf.new)) }

    ensures long { result ≡ Err ReadRefusal.TooLong → IfSome (S.left shelf.old) (λ bytes. limit < length bytes) }
    ensures one_more { result ≡ Err ReadRefusal.TooLong → HasTaken (S.left shelf.old) (S.left shelf.new) (limit + 1) }
    ensures fault { result ≡ Err ReadRefusal.ReadFault → Rose (S.faults shelf.old) (S.faults shelf.new) }
{
    let most = limit as usize + 1;
    let mut bytes = Vec::new(alloc);
    'pieces: while bytes.len() < most {
        let want = (most - bytes.len()).min(piece.len());
        match shelf.read(&mut piece[..want]) {
            Err(Failed) => return Err(ReadRefusal::ReadFault),
            Ok(0) => return Ok(bytes),
            Ok(count) => match bytes.extend_from_slice(&piece[..count]) {
                Err(AllocError) => return Err(ReadRefusal::NoMemory),
                Ok(()) => {}
            },
        }
    }
    Err(ReadRefusal::TooLong)
}
