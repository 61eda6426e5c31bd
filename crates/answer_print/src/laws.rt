//! Worked texts, stated as a contract.

ghost use Rattle.answer_print.specs.Examples.{HeldTexts};

use answer_texts::laws::date_law;

/// What is printed of a vector that holds an answer.
pub fn held_texts()
    ensures { HeldTexts }
{
    date_law();
}
