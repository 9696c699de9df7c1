//! Two tables with one contract: the table in slots, and a plain table that keeps its entries in a list. A run of
//! commands is proved once for both, and returns the same replies over either.
#![tactic(auto)]

mod command;
mod plain_table;
mod run;
mod table;

pub use command::{TableCommand, TableReply};
pub use plain_table::PlainTable;
pub use run::run_table;
pub use table::ThetaTable;
