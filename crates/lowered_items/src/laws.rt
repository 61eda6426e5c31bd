//! The laws of the items in order, each stated once, as a contract.

ghost use Rattle.lowered_items.specs.Items.{HoldLaw, ItemsPass, ItemsUse, PathLaw};

/// The part that makes the items in order passes the check, and makes an attribute for each item beside the mark.
pub fn items_pass()
    ensures { ItemsPass }
{}

/// Its statements are used.
pub fn items_use()
    ensures { ItemsUse }
{}

/// What it shows is the rows of the answer and nothing else, where a check knows what a run made.
pub fn hold_law()
    ensures { HoldLaw }
{}

/// It has an attribute for each item, and the mark, even where it has no place.
pub fn path_law()
    ensures { PathLaw }
{}
