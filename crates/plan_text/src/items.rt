//! A list of items, for the fields of a plan.
ghost use Rattle.std.specs.Prelude.{◌≡◌, MatchResult};
ghost use Rattle.sketch_base.specs.declared.error.ErrorKind.TheVariants.{InvalidArgument};

use crate::levels::{Levels, MAX_LEVELS};
use core_laws::LeafStep;
use sketch_base::{Error, ErrorKind};
use std::alloc::{Allocator, Global};
use std::marker::Model;

/// A vector whose value in contracts is the list of its items, so that two plans are equal if they have equal steps
/// and parts. It wraps a `Vec` and returns it, so it allocates nothing itself. It stores the greatest number of
/// levels among its items: at most 63.
#[derive(Drop)]
pub struct Items<T, A: Allocator = Global> {
    items: Vec<T, A>,
    /// The greatest number of levels among the items; 0 if there are none.
    levels: u8,
}

impl<T, A: Allocator> Model for Items<T, A> {
    ghost use Rattle.std.specs.Prelude.{List};
    ghost use Rattle.std.specs.Coded.{coded_list};

    ghost Value = { List T };

    ghost coded = { coded_list T.code };

    ghost view = { λ it. it.items.items };
}

/// The greatest number of levels among the items; 0 if there are none.
fn greatest_levels<T: Levels>(items: &[T]) -> u8 {
    let mut greatest = 0;
    for item in items {
        greatest = greatest.max(item.levels());
    }
    greatest
}

impl<T: Levels + Drop, A: Allocator> Items<T, A> {
    /// Wraps the parts of a plan and checks each one.
    ///
    /// Refused with `InvalidArgument` if a part has `MAX_LEVELS` levels, since a plan around it would have one more;
    /// then all parts are dropped.
    pub fn from_parts(parts: Vec<T, A>) -> Result<Items<T, A>, Error>
        ensures { MatchResult result (λ it. it ≡ parts.items) (λ e. e ≡ InvalidArgument) }
    {
        let levels = greatest_levels(parts.as_slice());
        if levels < MAX_LEVELS {
            Ok(Items {
                items: parts,
                levels,
            })
        } else {
            Err(Error::new(ErrorKind::InvalidArgument))
        }
    }

    /// Wraps parts that have fewer than `MAX_LEVELS` levels.
    pub(crate) fn of_fewer(parts: Vec<T, A>) -> Items<T, A>
        ensures { result ≡ parts.items }
    {
        let levels = greatest_levels(parts.as_slice());
        Items {
            items: parts,
            levels,
        }
    }
}

impl<V, A: Allocator> Items<LeafStep<V>, A> {
    /// Wraps the steps of a leaf, which have no levels.
    pub fn from_steps(steps: Vec<LeafStep<V>, A>) -> Items<LeafStep<V>, A>
        ensures { result ≡ steps.items }
    {
        Items {
            items: steps,
            levels: 0,
        }
    }
}

impl<T, A: Allocator> Items<T, A> {
    /// The greatest number of levels among the items; 0 if there are none.
    pub(crate) fn held_levels(&self) -> u8 {
        self.levels
    }

    /// The items as a vector.
    pub fn into_vec(self) -> Vec<T, A>
        ensures { result.items ≡ self }
    {
        let Items { items, levels: _ } = self;
        items
    }

    /// The items as a slice.
    pub fn as_slice(&self) -> &[T]
        ensures { result.now ≡ self.now }
    {
        self.items.as_slice()
    }
}
