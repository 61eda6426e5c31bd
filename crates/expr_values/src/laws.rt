//! The laws of the steps of an expression at one place, each stated once, as a contract.

ghost use Rattle.expr_values.specs.Laws.{ValueLaw, BlankLaw, KnownLaw};

use value_laws::laws::kind_law;

/// Where a row or a group stands, the last step leaves the value of the expression, and some step is Over exactly where the value is.
pub fn value_law()
    ensures { ValueLaw }
{
    kind_law();
}

/// Where nothing stands, the steps leave nothing.
pub fn blank_law()
    ensures { BlankLaw }
{}

/// The texts of values are texts of the dictionary.
pub fn known_law()
    ensures { KnownLaw }
{
    kind_law();
}
