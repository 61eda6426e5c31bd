//! What every catalog has, and worked examples, stated as contracts.

ghost use Rattle.std.specs.Prelude.{◌≡◌, List, [], All};
ghost use Rattle.sql_read.specs.declared.definition.TableDef.{TableDef as Definition};
ghost use Rattle.sql_types.specs.Catalog as spec;
ghost use Rattle.sql_types.specs.Examples.{WorkedCatalogs, NullTable, WidthTable};
ghost use Rattle.sql_types.specs.Widths.{IsSized};

/// In a catalog each text is 1 to 255 bytes wide, and each decimal has 1 to 18 digits, of which at most all stand after the point.
pub fn columns_are_sized()
    ensures { (defs : List Definition) → spec.findings defs ≡ [] → All (λ t. All IsSized t.columns) defs }
{}

/// Definitions that are catalogs, and others with their first refusals.
pub fn worked_catalogs()
    ensures { WorkedCatalogs }
{}

/// The widths of texts, and the precisions and scales of decimals.
pub fn worked_widths()
    ensures { WidthTable }
{}

/// Columns that may hold nulls, and others.
pub fn worked_nulls()
    ensures { NullTable }
{}
