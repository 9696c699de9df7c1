//! What sketches of both families share above the table: the updatable state, views of it and of compact states, the
//! settings behind the builders, and estimates.
//!
//! Everything is generic in the entry. A sketch's value is Empty, or its retained entries as a map with a theta.
#![tactic(auto)]

mod fraction;
mod iter;
mod settings;
mod updatable;
mod view;

pub use fraction::{compact_decimal, compact_fraction};
pub use iter::ThetaSketchIter;
pub use settings::Settings;
pub use updatable::UpdatableState;
pub use view::SketchView;
