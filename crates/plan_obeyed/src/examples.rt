//! Worked examples of programs that obey a control plan, and of programs that do not, each a theorem that the prover computes.

ghost use Rattle.plan_obeyed.specs.Examples.{
  KindExamples,
  LayoutExamples,
  LevelExamples,
  PartitionExamples,
  SelectExamples,
  SortExamples,
  SourceExamples,
};

/// In which runs rows are selected.
pub fn select_examples()
    ensures { SelectExamples }
{}

/// Through which folds values pass: the levels.
pub fn level_examples()
    ensures { LevelExamples }
{}

/// Through which folds values pass: the kinds of aggregates, and the runs of groups.
pub fn kind_examples()
    ensures { KindExamples }
{}

/// By what rows are laid out.
pub fn layout_examples()
    ensures { LayoutExamples }
{}

/// How the rows of a group are brought together: by sorting.
pub fn sort_examples()
    ensures { SortExamples }
{}

/// How the rows of a group are brought together: by Partitions.
pub fn partition_examples()
    ensures { PartitionExamples }
{}

/// Which Load is which source's.
pub fn source_examples()
    ensures { SourceExamples }
{}
