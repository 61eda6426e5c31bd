//! Where a table's file lies.

ghost use Rattle.std.specs.Prelude.{◌≡◌, IfOk};
ghost use Rattle.run_steps.specs.Paths as spec;

use io_edge::{Name, NoMemory};
use std::alloc::Global;

/// The file of a table: the schema's folder, then the table's name, then `.csv`.
pub(crate) fn table_file(alloc: Global, schema: &str, table: &str) -> Result<Name, NoMemory>
    ensures { IfOk result (λ file. file ≡ spec.table_file schema.now table.now) }
{
    let mut file = String::from_str(alloc, folder_of(schema))?;
    file.push_str(table)?;
    file.push_str(".csv")?;
    Ok(Name::from_string(file))
}

/// A path up to and with its last `/`.
fn folder_of(path: &str) -> &str
    ensures { result.now ≡ spec.folder_of path.now }
{
    match path.rfind('/') {
        None => "",
        Some(slash) => &path[..slash + 1],
    }
}
