//! The records of a text in CSV (RFC 4180), each as a line.
//!
//! A record ends with LF or CR LF, which the last one may lack. Its fields are separated by a byte. A field is plain, or
//! is between quotes. Between quotes it may have separators and line ends, and each quote in it is doubled.
//!
//! `Records` reads each record from a reader of the text as a line: the values of the chosen fields, and nothing for
//! the others, with `BETWEEN` between two fields. So the fields of the line have the numbers of the record's:
//!
//! ```
//! let form = Form { separator: b',', header: true, columns: Columns::new(2, 0, 0) };
//! let mut reader = Records::new(file, form);
//! ```
//!
//! A text that isn't such records is refused: a read fails, with the line and the flaw.
#![tactic(auto)]

mod flaw;
mod form;
pub mod laws;
mod place;
mod records;
mod stage;

pub use form::{BETWEEN, Columns, Form};
pub use records::Records;
