//! The laws of statements that are made of steps, each stated once, as a contract.

ghost use Rattle.expr_programs.specs.Laws.{CheckLaw, RunLaw, UseLaw, ExprCheckLaw, ExprRunLaw, ExprUseLaw};

/// Statements of steps that read only what stands before them pass, and make a vector of the value.
pub fn check_law()
    ensures { CheckLaw }
{}

/// They make what the last step makes at each place, and are Over where some step is at some place.
pub fn run_law()
    ensures { RunLaw }
{}

/// Each of them is used where each step is read, and they mention the vector that they read.
pub fn use_law()
    ensures { UseLaw }
{}

/// The statements of an expression pass, and make a vector of its value.
pub fn expr_check_law()
    ensures { ExprCheckLaw }
{}

/// They make the expression's value at each place, and are Over where it is at some place.
pub fn expr_run_law()
    ensures { ExprRunLaw }
{}

/// Each of them is used, and they mention the vector that they read.
pub fn expr_use_law()
    ensures { ExprUseLaw }
{}
