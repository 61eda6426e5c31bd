//! The top call.

ghost use Rattle.std.specs.Prelude.{◌≡◌, ◌≤◌, ◌⊎◌, ◌↔◌, IfErr, IfOk, IfSome, Err, List, None};
ghost use Rattle.std.specs.Io.KnownBytes.{Appends, Keeps};
ghost use Rattle.io_edge.specs.Faults.{Rose};
ghost use Rattle.io_edge.specs.Sinks.{AppendsPrefix};
ghost use Rattle.run_steps.specs.Expected.{expected, program_answer, query_answer};
ghost use Rattle.table_load.specs.Values.{Table};
ghost use Rattle.voodoo_cmd.specs.AnswerTexts.{IsPrintable, text_given};
ghost use Rattle.voodoo_cmd.specs.Reads.{HasTextCause, IsRead, Stops};
ghost use Rattle.run_steps.specs.Inputs.{IsFileRefusal};
ghost use Rattle.run_steps.specs.Loaded.{AreTablesOf, HasTables};
ghost use Rattle.voodoo_cmd.specs.RunEffects.{Answers, IsRefusal, ReadFaultHasCause, SchemaFaultHasCause, MayHaveWritten, Writes};
ghost use Rattle.run_steps.specs.Outcomes.{Meets};
ghost use Rattle.run_steps.specs.Statuses.{status_line};
ghost use Rattle.run_steps.specs.Steps.{tables_in};
ghost use Rattle.run_steps.specs.Words as words_spec;

use answer_print::write_answer;
use io_edge::{Name, Shelf, Sink};
use query_runs::{QueryRows, query_rows};
use row_print::{PrintRefusal, write_results};
use run_steps::{
    Mode, Status, UsageKind, read_catalog, read_query_file, read_runnable, read_tables, request_of,
    results_of, write_line,
};
use sql_types::Catalog;
use std::alloc::Global;
use table_load::{Database, finish};
use voodoo_ops::Results;

/// What a run is to write.
#[derive(Drop)]
enum Answer {
    /// A query's rows.
    Rows(QueryRows),
    /// A program's results.
    Results(Results),
}

/// Runs the command whose words are given, over the files of a shelf: the answer goes to `out`, and
/// the line of the status to `err`. The first word is the program's name.
///
/// Where the shelf tells what it holds and the sink tells what was written, the status is `Done` and
/// `out` has gained exactly the expected text; or it is the expected refusal, and `out` has gained
/// nothing. In their place may come a read fault, a write fault or `NoMemory`, the faults only where
/// the object's count of faults rose, or where the shelf tells that it lacks the file. `out` has
/// then gained a prefix of the text, and nothing after a read fault. No count of faults falls.
pub fn run<S: Shelf, O: Sink, E: Sink>(
    alloc: Global,
    words: &[Name],
    shelf: &mut S,
    out: &mut O,
    err: &mut E,
) -> Status
    ensures answer { IfSome (S.holds shelf.old) (λ files.
        Answers (expected words.now files) result (O.written out.old) (O.written out.new)) }
    ensures usage { (result ≡ Status.Usage UsageKind.Words) ↔ (words_spec.request_of words.now ≡ None) }

    // Causes: a fault only with a count that rose, or a file that the shelf tells it lacks.
    ensures read_fault { ReadFaultHasCause words.now (S.holds shelf.old) (S.faults shelf.old) (S.faults shelf.new) result }
    ensures write_fault { result ≡ Status.WriteFault → Rose (O.faults out.old) (O.faults out.new) }

    // What stands after it.
    ensures untouched { MayHaveWritten result ⊎ Keeps (O.written out.old) (O.written out.new) }
    ensures same_files { S.holds shelf.new ≡ S.holds shelf.old }
    ensures reads_later { S.faults shelf.old ≤ S.faults shelf.new }
    ensures writes_later { O.faults out.old ≤ O.faults out.new }
    ensures lines_later { E.faults err.old ≤ E.faults err.new }
    ensures line { AppendsPrefix (E.written err.old) (E.written err.new) (status_line result) }
    ensures whole_line { Rose (E.faults err.old) (E.faults err.new)
        ⊎ Appends (E.written err.old) (E.written err.new) (status_line result) }
{
    let status = match read_answer(alloc, words, shelf) {
        Ok(given) => written(alloc, out, &given),
        Err(status) => status,
    };
    let _ = write_line(err, &status);
    status
}

/// What is to be written, or the status of the first step that refuses.
fn read_answer<S: Shelf>(alloc: Global, words: &[Name], shelf: &mut S) -> Result<Answer, Status>
    ensures text { IfSome (S.holds shelf.old) (λ files. Meets text_given result (expected words.now files)) }
    ensures usage { (result ≡ Err (Status.Usage UsageKind.Words)) ↔ (words_spec.request_of words.now ≡ None) }
    ensures printable { IfOk result IsPrintable }
    ensures refuses { IfErr result IsRefusal }
    ensures cause { IfErr result (ReadFaultHasCause words.now (S.holds shelf.old) (S.faults shelf.old) (S.faults shelf.new)) }
    ensures same_files { S.holds shelf.new ≡ S.holds shelf.old }
    ensures later { S.faults shelf.old ≤ S.faults shelf.new }
{
    let Some(request) = request_of(words) else {
        return Err(Status::Usage(UsageKind::Words));
    };
    let loaded = read_database(alloc, shelf, request.schema)?;
    match request.mode {
        Mode::Sql => query_given(alloc, shelf, request.text, loaded),
        Mode::Algebra => program_given(alloc, shelf, request.text, &loaded.database),
    }
}

/// What is to be written of a query.
fn query_given<S: Shelf>(
    alloc: Global,
    shelf: &mut S,
    text: &str,
    loaded: Loaded,
) -> Result<Answer, Status>
    requires tables { HasTables loaded.database }
    requires defs { loaded.database.defs ≡ loaded.catalog }
    ensures text { (ts : List Table) → AreTablesOf loaded.database ts → IfSome (S.holds shelf.old) (λ files.
        Meets text_given result (query_answer files text.now (record { defs = loaded.database.defs; tables = ts }))) }
    ensures printable { IfOk result IsPrintable }
    ensures cause { IfErr result (HasTextCause (S.holds shelf.old) text.now (S.faults shelf.old) (S.faults shelf.new)) }
    ensures same_files { S.holds shelf.new ≡ S.holds shelf.old }
    ensures later { S.faults shelf.old ≤ S.faults shelf.new }
{
    let query = read_query_file(alloc, shelf, text, &loaded.catalog)?;
    let Loaded {
        catalog: _,
        database,
    } = loaded;
    Ok(Answer::Rows(query_rows(alloc, database, query)?))
}

/// What is to be written of a program.
fn program_given<S: Shelf>(
    alloc: Global,
    shelf: &mut S,
    text: &str,
    db: &Database,
) -> Result<Answer, Status>
    ensures text { IfSome (S.holds shelf.old) (λ files. Meets text_given result (program_answer files text.now db.now)) }
    ensures printable { IfOk result IsPrintable }
    ensures cause { IfErr result (HasTextCause (S.holds shelf.old) text.now (S.faults shelf.old) (S.faults shelf.new)) }
    ensures same_files { S.holds shelf.new ≡ S.holds shelf.old }
    ensures later { S.faults shelf.old ≤ S.faults shelf.new }
{
    let runnable = read_runnable(alloc, shelf, text, db)?;
    Ok(Answer::Results(results_of(alloc, &runnable, db.store())?))
}

/// The schema's catalog, and the database of its tables.
#[derive(Drop)]
struct Loaded {
    catalog: Catalog,
    database: Database,
}

/// The schema's catalog, and the database of its tables.
fn read_database<S: Shelf>(alloc: Global, shelf: &mut S, schema: &str) -> Result<Loaded, Status>
    ensures same_files { S.holds shelf.new ≡ S.holds shelf.old }
    ensures later { S.faults shelf.old ≤ S.faults shelf.new }
    ensures tables { IfOk result (λ l. IsRead (S.holds shelf.old) schema.now l.database) }
    ensures defs { IfOk result (λ l. l.database.defs ≡ l.catalog) }
    ensures stops { IfErr result (λ status. IfSome (S.holds shelf.old) (λ files. Stops status (tables_in files schema.now))) }
    ensures refuses { IfErr result IsFileRefusal }
    ensures cause { IfErr result (SchemaFaultHasCause (S.holds shelf.old) schema.now (S.faults shelf.old) (S.faults shelf.new)) }
{
    let catalog = read_catalog(alloc, shelf, schema)?;
    match read_tables(alloc, shelf, schema, catalog.defs()) {
        Ok(tables) => {
            let database = finish(alloc, catalog.defs(), tables)?;
            Ok(Loaded { catalog, database })
        }
        Err(status) => Err(status),
    }
}

/// Writes the whole answer.
fn written<O: Sink>(alloc: Global, out: &mut O, given: &Answer) -> Status
    requires { IsPrintable given.now }
    ensures writes { Writes (text_given given.now) result (O.written out.old) (O.written out.new) }
    ensures cause { result ≡ Status.WriteFault → Rose (O.faults out.old) (O.faults out.new) }
    ensures later { O.faults out.old ≤ O.faults out.new }
{
    match given {
        Answer::Rows(rows) => {
            match write_answer(alloc, &rows.database, &rows.query, &rows.results, out) {
                Ok(()) => Status::Done,
                Err(PrintRefusal::WriteFault) => Status::WriteFault,
                Err(PrintRefusal::NoMemory) => Status::NoMemory,
            }
        }
        Answer::Results(results) => match write_results(alloc, results, out) {
            Ok(()) => Status::Done,
            Err(PrintRefusal::WriteFault) => Status::WriteFault,
            Err(PrintRefusal::NoMemory) => Status::NoMemory,
        },
    }
}
