//! A run's files, each read in its role.

ghost use Rattle.std.specs.Prelude.{◌≡◌, ◌≤◌, IfErr, IfOk, IfSome, vec_len};
ghost use Rattle.run_steps.specs.Inputs.{file_in, HasFileCause};
ghost use Rattle.run_steps.specs.Outcomes.{Meets};

use crate::status::{FileRole, LimitWhat, Status};
use io_edge::{ReadRefusal, Shelf, read_all};
use std::alloc::Global;

/// How many bytes a schema may have.
pub(crate) const SCHEMA_LIMIT: u32 = 65_536;

/// How many bytes a table's file may have.
pub(crate) const TABLE_LIMIT: u32 = 1 << 28;

/// How many bytes a query may have.
pub(crate) const QUERY_LIMIT: u32 = 65_536;

/// How many bytes a program may have.
pub(crate) const PROGRAM_LIMIT: u32 = 1 << 23;

/// The bytes of a file in its role, which may have at most `limit`.
pub(crate) fn read_file<S: Shelf>(
    alloc: Global,
    shelf: &mut S,
    role: FileRole,
    limit: u32,
    name: &str,
) -> Result<Vec<u8>, Status>
    ensures same_files { S.holds shelf.new ≡ S.holds shelf.old }
    ensures later { S.faults shelf.old ≤ S.faults shelf.new }
    ensures bytes { IfSome (S.holds shelf.old) (λ files. Meets (λ v. v.items) result (file_in files role limit name.now)) }
    ensures short { IfOk result (λ v. vec_len v ≤ limit) }
    ensures cause { IfErr result (HasFileCause (S.holds shelf.old) role name.now (S.faults shelf.old) (S.faults shelf.new)) }
{
    match read_all(alloc, shelf, name, limit) {
        Ok(bytes) => Ok(bytes),
        Err(ReadRefusal::ReadFault) => Err(Status::ReadFault(role)),
        Err(ReadRefusal::TooLong) => Err(Status::LimitReached {
            what: LimitWhat::File(role),
            number: u64::from(limit) + 1,
        }),
        Err(ReadRefusal::NoMemory) => Err(Status::NoMemory),
    }
}
