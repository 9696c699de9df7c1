//! Sketches, unions and values against the streams that they were given, of either family: definitions and their
//! laws.
//!
//! The whole map of a stream has every entry and no theta. A fact of an object says which whole map it was given,
//! with its settings, and a call keeps it; the public types of each family say by these facts what their objects were
//! given. The only code here is laws: functions that do nothing, each with a law as its contract.
#![tactic(auto)]

pub mod laws;
