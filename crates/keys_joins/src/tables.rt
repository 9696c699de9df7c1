//! The sketches of the groups of a file, by their names.
ghost use Rattle.std.specs.Prelude.{◌≡◌, ◌++◌, ◌∷◌, ℕ, List, None, true, IfOk, OnOk};
ghost use Rattle.std.specs.Option.{option_copied};
ghost use Rattle.core_compact.specs.CompactState.{Compact};
ghost use Rattle.core_laws.specs.Refusal.{Refuses};
ghost use Rattle.keys_groups.specs.Names.{texts_of};
ghost use Rattle.keys_sketches.specs.Keys.{HaveSameLines};
ghost use Rattle.keys_joins.specs.Tables.{FileGroups, HasGroupsOf, sketch_at, SetsSketch};

use keys_groups::{Group, SketchedGroups};
use sketch_base::Error;
use std::alloc::{AllocError, Global};
use std::collections::BTreeMap;
use theta_sketches::CompactThetaSketch;

/// The sketch of each group of a file, by its name.
#[derive(Drop)]
pub(crate) struct SketchTable {
    map: BTreeMap<Vec<u8>, CompactThetaSketch>,
}

/// Puts the sketch of a group at its name. Refused only with `OutOfMemory`.
fn put_group(map: &mut BTreeMap<Vec<u8>, CompactThetaSketch>, group: Group) -> Result<(), Error>
    ensures put { OnOk result (SetsSketch group.name.items group.sketch map.old map.new) }
    ensures refused { Refuses result None true }
{
    let Group { name, sketch } = group;
    map.insert(name, sketch)?;
    Ok(())
}

/// Puts a name among others. Refused only with `OutOfMemory`.
fn put_name(alloc: Global, name: &[u8], names: &mut BTreeMap<Vec<u8>, ()>) -> Result<(), Error>
    ensures put { OnOk result (HaveSameLines (texts_of names.new.entries) (name.now ∷ texts_of names.old.entries)) }
    ensures refused { Refuses result None true }
{
    let key = Vec::from_slice(alloc, name)?;
    names.insert(key, ())?;
    Ok(())
}

impl SketchTable {
    /// The sketches of groups, which are taken out. Refused only with `OutOfMemory`.
    pub(crate) fn of<G: SketchedGroups>(alloc: Global, groups: &mut G) -> Result<SketchTable, Error>
        requires sound { G.is_sound groups.old }
        ensures table { (file : FileGroups)
            → G.lists file.sketch file.names groups.old
            → IfOk result (λ table. HasGroupsOf file table.map) }
        ensures refused { Refuses result None true }
    {
        let mut map = BTreeMap::new(alloc);
        for _ in 0..u64::MAX {
            let Some(group) = groups.take_group()? else {
                return Ok(SketchTable { map });
            };
            put_group(&mut map, group)?;
        }
        Err(Error::from(AllocError))
    }

    /// Puts the names of all groups among others. Refused only with `OutOfMemory`.
    pub(crate) fn put_names(
        &self,
        alloc: Global,
        names: &mut BTreeMap<Vec<u8>, ()>,
    ) -> Result<(), Error>
        ensures put { OnOk result (HaveSameLines (texts_of names.new.entries)
            (texts_of self.now.map.entries ++ texts_of names.old.entries)) }
        ensures refused { Refuses result None true }
    {
        for (name, _) in &self.map {
            put_name(alloc, name.as_slice(), names)?;
        }
        Ok(())
    }

    /// The sketch of the group of this name, if there is one.
    pub(crate) fn sketch_of(&self, name: &[u8]) -> Option<&CompactThetaSketch>
        ensures { option_copied result ≡ sketch_at self.now.map name.now }
    {
        self.map.get(name)
    }
}
