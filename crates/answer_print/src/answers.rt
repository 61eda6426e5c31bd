//! The answer of a query, printed.

ghost use Rattle.std.specs.Prelude.{◌≡◌, ◌≤◌, ◌++◌, [], ◌∷◌, OnOk, OnErr, Err, IfOk};
ghost use Rattle.std.specs.Io.KnownBytes.{Appends};
ghost use Rattle.csv.specs.Records.{fields_of, partial_of};
ghost use Rattle.io_edge.specs.Faults.{Rose};
ghost use Rattle.io_edge.specs.Sinks.{AppendsPrefix};
ghost use Rattle.programs.specs.Vectors.{seen, seen_all};
ghost use Rattle.row_print.specs.Results.{rows_text};
ghost use Rattle.answer_print.specs.Conditions.{HoldsAnswer, IsAnswerAlone};
ghost use Rattle.answer_print.specs.Held.{answer_in, held_text};

use crate::NoMemory;
use crate::items::{attribute, items_of};
use crate::rows::{marked_count, write_rows};
use csv::ByteRecord;
use io_edge::{Name, Sink, write_all};
use row_print::{PrintRefusal, RowText};
use std::alloc::Global;
use struct_vectors::StructVector;
use table_load::Database;
use typed_trees::TypedQuery;
use voodoo_ops::Results;

/// Prints the answer of a query that the one result of a program holds: the output names, then a row for each marked place.
/// A number has so many digits behind its point as its scale says, a date is `yyyy-mm-dd`, a text is that of its code, and a null is
/// an empty field. After a refusal the sink has gained a prefix of the text.
pub fn write_answer<O: Sink>(
    alloc: Global,
    db: &Database,
    q: &TypedQuery,
    r: &Results,
    out: &mut O,
) -> Result<(), PrintRefusal>
    requires { HoldsAnswer q.now (seen_all r.now) }
    ensures whole { OnOk result (Appends (O.written out.old) (O.written out.new) (held_text db.now.dictionary q.now (seen_all r.now))) }
    ensures prefix { OnErr result (AppendsPrefix (O.written out.old) (O.written out.new) (held_text db.now.dictionary q.now (seen_all r.now))) }
    ensures later { O.faults out.old ≤ O.faults out.new }
    ensures cause { result ≡ Err PrintRefusal.WriteFault → Rose (O.faults out.old) (O.faults out.new) }
{
    let v = answer(r);
    let items = items_of(alloc, q, v)?;
    let count = marked_count(attribute(v, ".mark"));
    let head = head_text(alloc, q.names.as_slice())?;
    write_all(out, head.as_slice())?;
    write_rows(alloc, db.dictionary(), items.as_slice(), count, out)
}

/// The one result, which is named `answer`.
fn answer(r: &Results) -> &StructVector
    requires { IsAnswerAlone (seen_all r.now) }
    ensures { seen result.now ≡ answer_in (seen_all r.now) }
{
    &r.named()[0].1
}

/// The row of the output names.
fn head_text(alloc: Global, names: &[Name]) -> Result<Vec<u8>, NoMemory>
    ensures { IfOk result (λ text. text.items ≡ rows_text (names.now ∷ [])) }
{
    let mut row = ByteRecord::new(alloc);
    push_names(names, &mut row)?;
    RowText::new(alloc).push(&row)?.into_text()
}

/// A field for each name.
fn push_names(names: &[Name], row: &mut ByteRecord) -> Result<(), NoMemory>
    requires { partial_of row.old ≡ [] }
    ensures { OnOk result (fields_of row.new ≡ fields_of row.old ++ names.now) }
{
    for name in names {
        row.push_field(name.text().as_bytes())?;
    }
    Ok(())
}
