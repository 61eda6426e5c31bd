//! What steps read, stated once, as contracts.

ghost use Rattle.expr_scopes.specs.Laws.{CodeLaw, ScopeLaw, ReadLaw};

/// The code of an expression reads only what stands before it, and each of its steps is read or gives its value.
pub fn code_law()
    ensures { CodeLaw }
{}

/// Each step reads only what stands before it.
pub fn scope_law()
    ensures { ScopeLaw }
{}

/// Each step behind the first two is read by one behind it, or is the last.
pub fn read_law()
    ensures { ReadLaw }
{}
