//! The language of lines of calls: words, settings, series and answers, what is shown of sketches and entries, and
//! the driver, which makes the calls of a line on an object, plainly or with each request for memory refused in turn.
//!
//! `tests/calls/README.md` describes the language. An object implements `object::Object`.
#![tactic(auto)]

pub mod answers;
pub mod arguments;
pub mod driver;
pub mod entries;
pub mod object;
pub mod series;
pub mod settings;
pub mod shown;
pub mod words;
