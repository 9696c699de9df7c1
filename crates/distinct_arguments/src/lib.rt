//! The arguments of the program `distinct`: what they request, the first fault in them, its message, and the texts of
//! help.
//!
//! Arguments are folders by `-C`, a command, its options, and files. Nothing here opens a file or prints.
#![tactic(auto)]

mod arguments;
mod commands;
mod fault;
mod files;
mod help;
pub mod laws;
mod options;
mod places;
mod precision;
mod settings;
mod share;
mod table;
mod words;

pub use arguments::{Front, front_of, read_arguments};
pub use commands::{Command, Operator, Request, Topic};
pub use fault::{Escaped, Fault};
pub use files::{check_output, reads_texts};
pub use help::text_of;
pub use options::{Column, Form, Mode, Options, Order, Seed};
pub use places::options_first;
pub use share::Share;
pub use table::{OptionName, has_option};
pub use words::{command_of, number_of, seed_of, word_of};
