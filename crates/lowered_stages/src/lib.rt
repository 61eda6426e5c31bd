//! Rows and groups that stand at a base.
#![tactic(auto)]
