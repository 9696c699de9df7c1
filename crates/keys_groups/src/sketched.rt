//! Groups that are taken out one after another, each with its sketch.
ghost use Rattle.std.specs.Prelude.{◌≡◌, ℕ, List, None, IfOk, true};
ghost use Rattle.core_compact.specs.CompactState.{Compact};
ghost use Rattle.core_laws.specs.Refusal.{Refuses};
ghost use Rattle.keys_groups.specs.Groups.{IsFirst};
ghost use Rattle.keys_groups.specs.United.{sketched_text};

use crate::groups::Group;
use crate::united::image_line;
use keys_sketches::image_of;
use sketch_base::Error;
use std::alloc::{AllocError, Global};

/// Groups in the ascending order of the bytes of their names, each with its sketch.
pub trait SketchedGroups {
    ghost use Rattle.std.specs.Prelude.{ℕ, List};
    ghost use Rattle.core_compact.specs.CompactState.{Compact};

    /// Whether the groups that are left have these names, in this order, and these sketches.
    ghost lists: { (sketch : List ℕ → Compact ℕ) → (names : List (List ℕ)) → Self → Type 0 };

    /// Whether each group that is left has a sketch.
    ghost is_sound: { Self → Type 0 };

    /// Takes out the first group of those that are left, or returns `None` if none is. Refused only with
    /// `OutOfMemory`; the group is then dropped.
    fn take_group(&mut self) -> Result<Option<Group>, Error>
        requires sound { is_sound self.old }
        ensures next { (sketch : List ℕ → Compact ℕ) (names : List (List ℕ))
            → lists sketch names self.old
            → IfOk result (IsFirst (lists sketch) sketch names self.new) }
        ensures sound { is_sound self.new }
        ensures refused { Refuses result None true };
}

/// The lines of groups, one after another: the name of each, a tab, and the image of its sketch in hexadecimal digits.
/// Refused only with `OutOfMemory`.
pub fn sketched_text<G: SketchedGroups>(alloc: Global, groups: &mut G) -> Result<Vec<u8>, Error>
    requires sound { G.is_sound groups.old }
    ensures text { (sketch : List ℕ → Compact ℕ) (names : List (List ℕ))
        → G.lists sketch names groups.old
        → IfOk result (λ v. v.items ≡ sketched_text sketch names) }
    ensures refused { Refuses result None true }
{
    let mut text = Vec::new(alloc);
    for _ in 0..u64::MAX {
        let Some(group) = groups.take_group()? else {
            return Ok(text);
        };
        let image = image_of(&group.sketch)?;
        let line = image_line(alloc, group.name.as_slice(), image.as_slice())?;
        text.extend_from_slice(line.as_slice())?;
    }
    Err(Error::from(AllocError))
}
