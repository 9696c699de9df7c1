//! Theta sketches, and tuple sketches of sums of 64 bits, for C.
//!
//! A theta sketch estimates how many distinct values a stream has. It retains the hashes of the values that are below
//! its theta; if they become too many, it lowers theta and drops the greatest hashes. The estimate is retained *
//! `MAX_THETA` / theta.
//!
//! Handles. An object is kept in a handle, a variable of one of the types below that have it as their only member.
//! Begin each with {0}, which has no object. A call that makes an object puts it into such a handle, and is refused
//! with `INVALID_ARGUMENT` if the handle has one already. The free calls take the object out again, so freeing twice
//! does nothing. Don't copy a handle: two copies would own one object. A call that takes a handle as const only reads
//! its object.
//!
//! Statuses. A call returns `OK`, or the reason why it was refused; `kc_status_text` has the reason in words. A call
//! that is refused changes nothing, neither an object nor an output, except where its comment says otherwise.
//! `INVALID_ARGUMENT` is also the status of a null pointer, and of a handle without an object. A buffer of input may
//! be null if its count is 0. No call stops the process.
//!
//! Buffers of output. A call that writes bytes writes their number to `*length`. If the buffer has no room for them,
//! the status is `TOO_SMALL`, the buffer is as before, and `*length` is the room that is needed. So call with a room
//! of 0 first (the buffer may then be null), allocate, and call again.
//!
//! Seeds. Sketches are merged only if their seeds have one seed hash. `DEFAULT_SEED` is the seed that all
//! implementations of the DataSketches format use if no other is passed. The seed of an empty sketch is never
//! checked.
//!
//! Threads. Calls that take a handle as const may use it at the same time, and one call may take it twice. While a
//! call runs that takes a handle otherwise, no other uses it. No two arguments of a call may overlap, except those
//! that are const.
//!
//! # In Rattle
//!
//! This crate is a static library with an export for each call. Handles are in `c_handles`, the objects and what is
//! done with them in `c_objects`. `bindings/c/make_calls.py` makes `include/kaftanclay.h` and the C behind it of
//! this crate: of the text above, the comments of a line below, which are headings up to a colon, and each export's
//! signature, clauses and doc comment.
#![tactic(auto)]

// Theta sketches that take updates
mod theta;

// Theta sketches that take updates: strings
mod strings;

// The lines of a text
mod text;

// Compact theta sketches
mod compact;

// Unions
mod union;

// Many sketches at once
mod batch;

// Intersections and differences: intersections
mod intersection;

// Intersections and differences: differences
mod difference;

// Images alone
mod images;

// Images alone: why they are not read
mod flaws;

// Tuple sketches of sums
mod sums;

// Tuple sketches of sums: many values
mod values;

// Compact tuple sketches of sums
mod compact_sums;

// Unions of tuple sketches of sums
mod sums_union;

// Intersections and differences of tuple sketches of sums: intersections
mod sums_intersection;

// Intersections and differences of tuple sketches of sums: differences
mod sums_difference;

// Hashes
mod hashes;

// Estimates: of counts
mod bounds;

// Estimates: of totals
mod total_decimals;

// Estimates: numbers as text
mod numbers;
