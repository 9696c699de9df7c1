//! The handles of C, and what calls do to the objects behind them: a library, without exports, which are in
//! `c_library`.
//!
//! C keeps each object in a handle (`handles`), a struct of one pointer that is null if the handle has none.
//! Contracts see a handle as the object that it owns, or none. A handle passes on its pointer with the type of the
//! object (`owned`). A call that only reads an object gets a reader in place of the handle (`readers`), to which the
//! object is lent by `&`; other readers may have it at the same time. What is done with objects of several kinds is
//! done on these two pointers, once for all (`access`, `reader`, `calls`).
#![tactic(auto)]

mod access;
mod calls;
pub mod handles;
mod opaque;
pub mod owned;
mod pointers;
mod raw_box;
mod read_pointers;
pub mod reader;
pub mod readers;
mod threads;
