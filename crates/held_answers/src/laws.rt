//! What is printed of results that hold an answer.

ghost use Rattle.held_answers.specs.Laws.{PrintLaw};

use table_load::laws::columns_fit;
use typing_laws::laws::{column_law, typed_law};
use value_laws::laws::kind_law;
use written_queries::laws::written_law;

/// Results that hold the rows of a query's answer can be printed, and what is printed is the answer's text.
pub fn print_law()
    ensures { PrintLaw }
{
    columns_fit();
    typed_law();
    column_law();
    kind_law();
    written_law();
}
