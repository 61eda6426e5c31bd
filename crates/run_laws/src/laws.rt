//! The laws of what is expected, each stated once, as a contract.

ghost use Rattle.run_laws.specs.Laws.{CatalogLaw, ExpectedLaw, ProgramLaw, QueryLaw, SchemaLaw, TableLaw, TypingLaw};

/// The reading of a schema never comes to want of memory.
pub fn schema_law()
    ensures { SchemaLaw }
{}

/// The look at a schema's definitions never comes to want of memory.
pub fn catalog_law()
    ensures { CatalogLaw }
{}

/// The loading of a table never comes to want of memory.
pub fn table_law()
    ensures { TableLaw }
{}

/// The reading of a query never comes to want of memory.
pub fn query_law()
    ensures { QueryLaw }
{}

/// The typing of a query never comes to want of memory.
pub fn typing_law()
    ensures { TypingLaw }
{}

/// The reading of a program never comes to want of memory.
pub fn program_law()
    ensures { ProgramLaw }
{}

/// What is expected of a run is never want of memory, whatever the words and files.
pub fn expected_law()
    ensures { ExpectedLaw }
{}
