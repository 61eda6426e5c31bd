//! Folds over runs: FoldSum, FoldMin, FoldMax, FoldSelect and FoldScan of Pirk, Moll, Zaharia and Madden,
//! "Voodoo - A Vector Algebra for Portable Database Performance on Modern Hardware", PVLDB 9(14), 2016,
//! section 2.2.
#![tactic(auto)]

pub mod folding;
mod pushing;
mod run_ends;
mod stretches;

pub use folding::{fold_runs, scan_runs, select_runs};
