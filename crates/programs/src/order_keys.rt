//! The keys of an Order.

use key_paths::Path;
use std::marker::Model;

/// An attribute by which places are sorted, from its least slot up or from its greatest down.
#[derive(Drop)]
pub struct OrderPath {
    pub path: Path,
    pub descending: bool,
}

/// The keys of an Order, the first one first. Contracts see the list of them.
#[derive(Drop)]
pub struct OrderKeys {
    keys: Vec<OrderPath>,
}

impl Model for OrderKeys {
    ghost use Rattle.std.specs.Prelude.{List};
    ghost use Rattle.programs.specs.declared.order_keys.OrderPath.{OrderPath};

    ghost Value = { List OrderPath };

    ghost view = { λ k. k.keys.items };
}

impl OrderKeys {
    ghost use Rattle.std.specs.Prelude.{◌≡◌};

    /// These keys.
    pub fn new(keys: Vec<OrderPath>) -> OrderKeys
        ensures { result ≡ keys.items }
    {
        OrderKeys { keys }
    }

    /// The keys, in order.
    pub fn keys(&self) -> &[OrderPath]
        ensures { result.now ≡ self.now }
    {
        self.keys.as_slice()
    }
}
