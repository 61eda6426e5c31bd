//! The laws of orders, and worked examples, each stated once, as a contract.

ghost use Rattle.sort_order.specs.Laws.{OrderExamples, OrderLaws};

/// An order is the stable sort of the marked places, and the only one.
pub fn order_laws()
    ensures { OrderLaws }
{}

/// Orders of five places.
pub fn order_examples()
    ensures { OrderExamples }
{}
