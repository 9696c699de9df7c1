//! What the commands of the program `distinct` read: names of files from arguments and lists, images one after another
//! from files or their lines, and seeds.
//!
//! Nothing here opens a file: `Inputs` asks `Sources` for each.
#![tactic(auto)]

mod any_seed;
mod choices;
mod images;
mod inputs;
mod lists;
mod records;
mod seeds;

pub use any_seed::read_any_seed;
pub use choices::{Choice, choice_of};
pub use images::Images;
pub use inputs::{Files, Input, Inputs, files_in_list, names_from};
pub use lists::{ListError, names_in, texts_of};
pub use records::record_form;
pub use seeds::{seed_from, seed_of};
