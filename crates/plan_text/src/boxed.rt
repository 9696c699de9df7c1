//! One item in a box, for the fields of a plan.
ghost use Rattle.std.specs.Prelude.{◌≡◌, MatchResult};
ghost use Rattle.sketch_base.specs.declared.error.ErrorKind.TheVariants.{InvalidArgument};

use crate::levels::{Levels, MAX_LEVELS};
use sketch_base::{Error, ErrorKind};
use std::alloc::{Allocator, Global};
use std::marker::Model;

/// A box whose value in contracts is the boxed item, so that two plans are equal if they have equal parts. It wraps a
/// `Box`, so it allocates nothing itself. It stores the number of levels of its item: at most 63.
#[derive(Drop)]
pub struct Boxed<T, A: Allocator = Global> {
    content: Box<T, A>,
    /// The levels of the item.
    levels: u8,
}

impl<T, A: Allocator> Model for Boxed<T, A> {
    ghost Value = { T };

    ghost coded = { T.code };

    ghost view = { λ b. b.content.value };
}

impl<T: Levels + Drop, A: Allocator> Boxed<T, A> {
    /// Wraps a box.
    ///
    /// Refused with `InvalidArgument` if the item has `MAX_LEVELS` levels, since a plan around it would have one
    /// more; then the box is dropped.
    pub fn from_box(content: Box<T, A>) -> Result<Boxed<T, A>, Error>
        ensures { MatchResult result (λ b. b ≡ content.value) (λ e. e ≡ InvalidArgument) }
    {
        if content.levels() < MAX_LEVELS {
            Ok(Boxed::of_fewer(content))
        } else {
            Err(Error::new(ErrorKind::InvalidArgument))
        }
    }

    /// Wraps a box whose item has fewer than `MAX_LEVELS` levels.
    pub(crate) fn of_fewer(content: Box<T, A>) -> Boxed<T, A>
        ensures { result ≡ content.value }
    {
        let levels = content.levels();
        Boxed { content, levels }
    }
}

impl<T, A: Allocator> Boxed<T, A> {
    /// The levels of the item.
    pub(crate) fn held_levels(&self) -> u8 {
        self.levels
    }

    /// The item, by reference.
    pub fn get(&self) -> &T
        ensures { result.now ≡ self.now }
    {
        &self.content
    }
}
