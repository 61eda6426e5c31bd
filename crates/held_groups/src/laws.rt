//! The laws of groups and their aggregates over slots, each stated once, as a contract.

ghost use Rattle.held_groups.specs.Groups.{CodeLaw, SortLaw, GroupLaw, MemberLaw};
ghost use Rattle.held_groups.specs.Heads.{HeadLaws};
ghost use Rattle.held_groups.specs.Members.{GroupRows, GroupCellLaw};
ghost use Rattle.held_groups.specs.Overs.{EachRowLaw, SomeRowLaw, GroupsOnLaw};
ghost use Rattle.held_groups.specs.Aggregates.{ThereLaw, ValuesLaw, RowsLaw, RowCountLaw};

/// Values of one kind compare as the slots that stand for them.
pub fn code_law()
    ensures { CodeLaw }
{}

/// Rows that are sorted by slots are sorted by their group key.
pub fn sort_law()
    ensures { SortLaw }
{}

/// The groups are the runs of the sorted rows, and their rows are rows of the list.
pub fn group_law()
    ensures groups { GroupLaw }
    ensures members { MemberLaw }
{}

/// Groups at the places where their runs begin: what folds over the sorted rows give there.
pub fn head_laws()
    ensures { HeadLaws }
{}

/// An aggregate over a group is what folds make of its slots.
pub fn aggregate_laws()
    ensures there { ThereLaw }
    ensures values { ValuesLaw }
    ensures rows { RowsLaw }
    ensures count { RowCountLaw }
{}

/// Over is strict, from rows to groups.
pub fn over_laws()
    ensures each_row { EachRowLaw }
    ensures some_row { SomeRowLaw }
    ensures groups_on { GroupsOnLaw }
{}

/// The rows of a group are rows of the list, and an aggregate over them is what folds make of their slots.
pub fn member_laws()
    ensures rows { GroupRows }
    ensures cell { GroupCellLaw }
{}
