//! The command that a text spells.

use crate::plan::Plan;
use std::alloc::{Allocator, Global};

/// The kind of sketches of a plan.
#[derive(Clone, Copy)]
pub enum Family {
    /// Theta sketches, whose updates carry a hash and nothing else.
    Theta,
    /// Tuple sketches, whose updates carry a hash and a value.
    Tuple,
}

/// The form in which a plan's sketch is answered.
#[derive(Clone, Copy)]
pub enum Form {
    /// Whether it is empty, its theta and its retained entries.
    Show,
    /// Its ordered image.
    Image,
}

/// The command that a text spells: a plan of a family, and the form of its answer.
#[derive(Drop)]
pub enum Command<A: Allocator = Global> {
    /// A plan of theta sketches.
    Theta(Form, Plan<(), A>),
    /// A plan of tuple sketches.
    Tuple(Form, Plan<u64, A>),
}
