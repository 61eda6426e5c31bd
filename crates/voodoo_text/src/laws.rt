//! The laws of texts, stated once, as contracts.

ghost use Rattle.voodoo_text.specs.GrammarLaws.{LineLaws};
ghost use Rattle.voodoo_text.specs.Examples.{WorkedLines};
ghost use Rattle.voodoo_text.specs.Laws.{TextLaws, WordLaws};

/// A program and its canonical text decide each other.
pub fn text_laws()
    ensures { TextLaws }
{}

/// A line is read as the statement that the grammar gives its tokens, or refused at the first token that cannot stand.
pub fn line_laws()
    ensures { LineLaws }
{}

/// An operator and its word decide each other.
pub fn word_laws()
    ensures { WordLaws }
{}

/// What a line of each family of operators spells, and where lines are first refused, worked out.
pub fn worked_lines()
    ensures { WorkedLines }
{}
