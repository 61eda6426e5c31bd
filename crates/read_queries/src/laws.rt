//! The laws of groups, each stated once, as a contract.

ghost use Rattle.read_queries.specs.Laws.{AnswerLaw, GroupsLaw};

/// In a query that is read, by the grammar, there is GROUP BY where HAVING stands.
pub fn groups_law()
    ensures { GroupsLaw }
{}

/// In the query that a text is answered with there is GROUP BY where HAVING stands.
pub fn answer_law()
    ensures { AnswerLaw }
{}
