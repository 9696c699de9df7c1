//! Evaluates plans of sketches by the public calls of the sketches alone. A plan is evaluated to one sketch, with the
//! plan's value and all of the whole streams' map below its theta. One evaluation serves both families; the trait
//! `SketchFamily` lists what it needs of a family.
//!
//! Evaluates the plan of a text under the default seed:
//!
//! ```
//! match read_plan(alloc, text)? {
//!     Command::Theta(_, plan) => {
//!         let sketch = evaluate_theta(alloc, &plan, DEFAULT_UPDATE_SEED)?;
//!         Ok(sketch.num_retained())
//!     }
//!     Command::Tuple(_, plan) => {
//!         let sketch = evaluate_sums(alloc, &plan, DEFAULT_UPDATE_SEED)?;
//!         Ok(sketch.num_retained())
//!     }
//! }
//! ```
#![tactic(auto)]

mod evaluate;
mod evaluated;
mod family;
mod plans;
mod theta;
mod tuple;

pub use evaluated::Evaluated;
pub use family::SketchFamily;
pub use plans::{evaluate_sums, evaluate_theta, evaluate_tuple};
pub use theta::ThetaFamily;
pub use tuple::TupleFamily;
