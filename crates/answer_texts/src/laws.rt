//! Worked texts, and the law of dates, each stated once, as a contract.

ghost use Rattle.answer_texts.specs.DateLaws.{EveryDay, PrintedDate};
ghost use Rattle.answer_texts.specs.Examples.{DateTexts, NumberTexts, Texts};

/// A text that is a date is that of its day, and each day of the years 1 to 9999 is read again from its text.
pub fn date_law()
    ensures printed { PrintedDate }
    ensures every { EveryDay }
{}

/// Numbers of several scales, as text.
pub fn numbers()
    ensures { NumberTexts }
{}

/// Days as text, the first and the last among them.
pub fn dates()
    ensures { DateTexts }
{}

/// Answers as text, worked out.
pub fn texts()
    ensures { Texts }
{}
