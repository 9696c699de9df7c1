//! The lines of groups that are joined by their names.
ghost use Rattle.std.specs.Prelude.{◌≡◌, ℕ, List, None, true, IfOk};
ghost use Rattle.core_laws.specs.Refusal.{Refuses};
ghost use Rattle.sketch_base.specs.Seed.{seed_hash};
ghost use Rattle.keys_joins.specs.Tables.{FileGroups, AreTablesOf};
ghost use Rattle.theta_sketches.specs.Image.{written};
ghost use Rattle.keys_groups.specs.United.{image_line};
ghost use Rattle.keys_joins.specs.Joins.{joined_line, joined_text, remainder_of, AreAllAt, IsOfSeed};
ghost use Rattle.keys_joins.specs.Joins.{intersection_of, difference_of};
ghost use Rattle.keys_joins.specs.declared.joins.Join.TheVariants.{Meet as MeetGroups, Minus as MinusGroups};

use crate::tables::SketchTable;
use keys_groups::{Group, SketchedGroups, image_line};
use keys_sketches::{difference, image_of, intersection};
use sketch_base::Error;
use std::alloc::{AllocError, Global};
use theta_sketches::CompactThetaSketch;

/// How the sketches of one name are joined.
#[derive(Clone, Copy, Debug, PartialEq, Eq)]
pub(crate) enum Join {
    /// By their intersection, if all files have the name.
    Meet,
    /// By the difference of the first two, or the first if the second file lacks the name.
    Minus,
}

/// A sketch and copies of those of its name in all tables; `None` if one has none. Refused only with `OutOfMemory`.
fn all_at(
    alloc: Global,
    sketch: CompactThetaSketch,
    name: &[u8],
    others: &[SketchTable],
) -> Result<Option<Vec<CompactThetaSketch>>, Error>
    ensures all { (files : List FileGroups)
        → AreTablesOf files others.now
        → IfOk result (AreAllAt files name.now sketch) }
    ensures refused { Refuses result None true }
{
    let mut sketches = Vec::new(alloc);
    sketches.push(sketch)?;
    let mut left = others;
    while let Some((table, more)) = left.split_first() {
        let Some(other) = table.sketch_of(name) else {
            return Ok(None);
        };
        let copy = other.clone()?;
        sketches.push(copy)?;
        left = more;
    }
    Ok(Some(sketches))
}

/// The intersection of sketches of one seed. Such an intersection is refused only for memory, so this is what any
/// refusal is reported as.
pub(crate) fn met(
    alloc: Global,
    seed: u64,
    sketches: &[CompactThetaSketch],
) -> Result<CompactThetaSketch, Error>
    ensures met { IfOk result (λ s. s ≡ intersection_of seed sketches.now) }
    ensures refused { Refuses result None true }
{
    match intersection(alloc, seed, sketches) {
        Ok(sketch) => Ok(sketch),
        Err(_) => Err(Error::from(AllocError)),
    }
}

/// The difference of two sketches of one seed, which is refused only for memory.
fn difference_of_two(
    alloc: Global,
    seed: u64,
    first: &CompactThetaSketch,
    second: &CompactThetaSketch,
) -> Result<CompactThetaSketch, Error>
    ensures difference { first.now.seed_hash ≡ seed_hash seed
        → IfOk result (λ s. s ≡ difference_of seed first.now second.now) }
    ensures refused { Refuses result None true }
{
    match difference(alloc, seed, first, second) {
        Ok(sketch) => Ok(sketch),
        Err(_) => Err(Error::from(AllocError)),
    }
}

/// The sketch of a group of the first file without the hashes of the group of its name in the second, if there is one.
fn remainder(
    alloc: Global,
    seed: u64,
    sketch: CompactThetaSketch,
    name: &[u8],
    others: &[SketchTable],
) -> Result<CompactThetaSketch, Error>
    ensures remainder { (first : FileGroups) (files : List FileGroups)
        → AreTablesOf files others.now
        → sketch ≡ first.sketch name.now
        → sketch.seed_hash ≡ seed_hash seed
        → IfOk result (λ s. s ≡ remainder_of seed first files name.now) }
    ensures refused { Refuses result None true }
{
    let Some((second, _)) = others.split_first() else {
        return Ok(sketch);
    };
    match second.sketch_of(name) {
        Some(other) => difference_of_two(alloc, seed, &sketch, other),
        None => Ok(sketch),
    }
}

/// The line of a name with the image of its sketch. Refused only with `OutOfMemory`.
fn sketch_line(alloc: Global, name: &[u8], sketch: &CompactThetaSketch) -> Result<Vec<u8>, Error>
    ensures line { IfOk result (λ v. v.items ≡ image_line name.now (written sketch.now)) }
    ensures refused { Refuses result None true }
{
    let image = image_of(sketch)?;
    Ok(image_line(alloc, name, image.as_slice())?)
}

/// The line of a group of the first file, intersected with those of its name in all other files; no line if one has no
/// such group.
fn meet_line(
    alloc: Global,
    seed: u64,
    group: Group,
    others: &[SketchTable],
) -> Result<Vec<u8>, Error>
    ensures line { (first : FileGroups) (files : List FileGroups)
        → AreTablesOf files others.now
        → group.sketch ≡ first.sketch group.name.items
        → IfOk result (λ v. v.items ≡ joined_line MeetGroups seed first files group.name.items) }
    ensures refused { Refuses result None true }
{
    let Group { name, sketch } = group;
    match all_at(alloc, sketch, name.as_slice(), others)? {
        Some(sketches) => {
            let sketch = met(alloc, seed, sketches.as_slice())?;
            sketch_line(alloc, name.as_slice(), &sketch)
        }
        None => Ok(Vec::new(alloc)),
    }
}

/// The line of a group of the first file, without the hashes of the group of its name in the second.
fn minus_line(
    alloc: Global,
    seed: u64,
    group: Group,
    others: &[SketchTable],
) -> Result<Vec<u8>, Error>
    ensures line { (first : FileGroups) (files : List FileGroups)
        → AreTablesOf files others.now
        → group.sketch ≡ first.sketch group.name.items
        → group.sketch.seed_hash ≡ seed_hash seed
        → IfOk result (λ v. v.items ≡ joined_line MinusGroups seed first files group.name.items) }
    ensures refused { Refuses result None true }
{
    let Group { name, sketch } = group;
    let left = remainder(alloc, seed, sketch, name.as_slice(), others)?;
    sketch_line(alloc, name.as_slice(), &left)
}

/// The line of a group of the first file, joined with those of its name in the other files; no line if it is none of
/// the result. Refused only with `OutOfMemory`.
fn line_of(
    alloc: Global,
    join: Join,
    seed: u64,
    group: Group,
    others: &[SketchTable],
) -> Result<Vec<u8>, Error>
    ensures line { (first : FileGroups) (files : List FileGroups)
        → AreTablesOf files others.now
        → group.sketch ≡ first.sketch group.name.items
        → group.sketch.seed_hash ≡ seed_hash seed
        → IfOk result (λ v. v.items ≡ joined_line join seed first files group.name.items) }
    ensures refused { Refuses result None true }
{
    match join {
        Join::Meet => meet_line(alloc, seed, group, others),
        Join::Minus => minus_line(alloc, seed, group, others),
    }
}

/// The lines of the groups of the first file, which are taken out, joined with those of the other files. Refused only
/// with `OutOfMemory`.
pub(crate) fn joined_text<G: SketchedGroups>(
    alloc: Global,
    join: Join,
    seed: u64,
    first: &mut G,
    others: &[SketchTable],
) -> Result<Vec<u8>, Error>
    requires sound { G.is_sound first.old }
    ensures text { (file : FileGroups) (files : List FileGroups)
        → G.lists file.sketch file.names first.old
        → IsOfSeed seed file
        → AreTablesOf files others.now
        → IfOk result (λ v. v.items ≡ joined_text join seed file files file.names) }
    ensures refused { Refuses result None true }
{
    let mut text = Vec::new(alloc);
    for _ in 0..u64::MAX {
        let Some(group) = first.take_group()? else {
            return Ok(text);
        };
        let line = line_of(alloc, join, seed, group, others)?;
        text.extend_from_slice(line.as_slice())?;
    }
    Err(Error::from(AllocError))
}
