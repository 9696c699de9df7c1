//! The values of plans of sketches: the value of each node, the whole streams below it, where a policy may refuse,
//! and which merges don't depend on the order. The only code here is laws: functions that do nothing, and whose
//! contract is the law.
//!
//! The definitions describe a family of sketches by its entries' keys, its merges and its steps. Its entries are
//! hashes alone, or the folds of tuples: tuples, or the mark of a refusal. Each law holds for both.
#![tactic(auto)]

pub mod laws;
