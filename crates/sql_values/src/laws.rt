//! The laws of values and their order, each stated once, as a contract.

ghost use Rattle.sql_values.specs.Examples.{TextExamples, ValueExamples};
ghost use Rattle.sql_values.specs.Laws.{TextOrder, ValueOrder};

/// Texts by their bytes are totally ordered, and two that are alike are one.
pub fn text_order()
    ensures { TextOrder }
{}

/// Values are totally ordered, and two that are alike are one.
pub fn value_order()
    ensures { ValueOrder }
{}

/// Texts in their order, worked out.
pub fn text_examples()
    ensures { TextExamples }
{}

/// Values in their order, worked out.
pub fn value_examples()
    ensures { ValueExamples }
{}
