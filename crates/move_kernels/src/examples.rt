//! Worked examples of the definitions, each a theorem that the prover computes.

ghost use Rattle.move_kernels.specs.Examples.{BucketExamples, CrossExamples, GatherExamples, ScatterExamples};

/// What becomes of three slots that are scattered, in all places and in some.
pub fn scatter_examples()
    ensures { ScatterExamples }
{}

/// What stands at some positions.
pub fn gather_examples()
    ensures { GatherExamples }
{}

/// The buckets of some keys.
pub fn bucket_examples()
    ensures { BucketExamples }
{}

/// The places of some pairs.
pub fn cross_examples()
    ensures { CrossExamples }
{}
