//! Objects of lines for tables: of hashes, of tuples, of operators, and those of theta_tables.
#![tactic(auto)]

mod commands;
mod hash_tables;
mod objects;
mod operator_tables;
mod plain_tables;
mod runs;
mod steps;
mod table_iterators;
mod tables;
mod tuple_tables;

pub use objects::answer;
