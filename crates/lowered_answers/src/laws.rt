//! The laws of a plan's program, as contracts.

ghost use Rattle.lowered_answers.specs.Laws.{AnswerLaw, CheckLaw};

use expr_counts::laws::{count_law, node_law};
use expr_values::laws::{blank_law, known_law, value_law};
use lowered_premises::laws::{
    column_law, group_places_law, groups_law, member_laws, places_law, rows_law, shape_laws,
    source_law, table_law,
};
use value_laws::laws::kind_law;

/// The program of a plan over one table passes its check, and makes no vector of more than 2^22 places.
pub fn check_law()
    ensures { CheckLaw }
{
    kind_law();
    known_law();
    value_law();
    blank_law();
    node_law();
    count_law();
    source_law();
    column_law();
    table_law();
    rows_law();
    groups_law();
    member_laws();
    places_law();
    group_places_law();
    shape_laws();
}

/// Its results hold the rows of the plan's answer in order, or it is Over exactly where the answer is.
pub fn answer_law()
    ensures { AnswerLaw }
{
    kind_law();
    known_law();
    value_law();
    blank_law();
    node_law();
    count_law();
    source_law();
    column_law();
    table_law();
    rows_law();
    groups_law();
    member_laws();
    places_law();
    group_places_law();
    shape_laws();
}
