//! Unions.
ghost use Rattle.std.specs.Prelude.{◌≡◌, ◌^◌, [], ◌∷◌, true, false, not, None, IfOk, IfErr, OnOk, OnErr};
ghost use Rattle.sketch_base.specs.Seed.{seed_hash};
ghost use Rattle.core_compact.specs.CompactState.{IsAnswer};
ghost use Rattle.core_laws.specs.Refusal.{Refuses};
ghost use Rattle.core_laws.specs.Cuts.{IsRetained};
ghost use Rattle.core_laws.specs.Settings.{settings_refusal};
ghost use Rattle.core_laws.specs.Shown.{IsShown};
ghost use Rattle.core_operators.specs.Union.{Union, empty_union, union_value, update_refusal, lower_refusal};
ghost use Rattle.core_operators.specs.Union.{lower_allocates, lowered, failure, IsUnion, JoinsShown, UnitesShown};
ghost use Rattle.core_operators.specs.Union.{IsUpdateError, all_empty, update_all_refusal, JoinsAll, UnitesAll};
ghost use Rattle.core_operators.specs.Union.{IsUpdateAllError};
ghost use Rattle.core_laws.specs.Values.{cut_value};
ghost use Rattle.core_laws.specs.Entries.{ClonesEqual};

use crate::merge::merge_entries;
use crate::ranges::{inputs_of, merge_all};
use crate::union_table::UnionTable;
use crate::view::{EntrySketch, ThetaFamilySketchMetadata};
use core_compact::CompactSketchState;
use core_laws::MIN_LG_K;
use core_policies::UnionMergePolicy;
use core_slots::SlotEntry;
use core_table::ResizeFactor;
use sketch_base::{Error, ErrorKind};
use std::alloc::{Allocator, Global};
use std::marker::Model;

/// A union of sketches, passed one by one or many in a call.
///
/// Its value has the entries of all its inputs below their least theta and its own starting theta, cut to its k
/// nominal entries of least hash; the policy combines the entries of a key that inputs share, in the order of the
/// inputs. If a merge breaks off, the union has failed: until it is reset, `update`, `update_all`, `lower_lg_k` and
/// `to_compact_sketch_state` are refused with `Failed`.
///
/// Its theta is at most its table's. Entries of the table at or above the union's theta no longer belong to the
/// union.
#[derive(Drop)]
pub struct UnionState<E: SlotEntry, P, A: Allocator = Global> {
    empty: bool,
    failed: bool,
    theta: u64,
    table: UnionTable<E, A>,
    policy: P,
}

impl<E: SlotEntry, P, A: Allocator> Model for UnionState<E, P, A> {
    ghost use Rattle.core_laws.specs.Cuts.{retained};
    ghost use Rattle.core_operators.specs.Union.{Union, IsUnionOver};

    ghost Value = { Union E P };

    ghost view = { λ u.
        let t = u.table.map in
        record {
          empty = u.empty;
          failed = u.failed;
          content = retained E.key t.kept.entries u.theta;
          lg_k = t.lg_nom;
          start = t.start;
          seed_hash = t.seed_hash;
          policy = u.policy;
        } };

    ghost invariant = { λ u.
        IsUnionOver E.key u.table.map
        (record {
          empty = u.empty;
          failed = u.failed;
          content = retained E.key u.table.map.kept.entries u.theta;
          lg_k = u.table.map.lg_nom;
          start = u.table.map.start;
          seed_hash = u.table.map.seed_hash;
          policy = u.policy;
        }) };
}

impl<E: SlotEntry + Drop, P: Drop, A: Allocator + Drop> UnionState<E, P, A> {
    /// An empty union of 2^`lg_k` nominal entries, with `lg_k` from 4 to 26, and a starting theta from 1 to
    /// `MAX_THETA`.
    ///
    /// Refused with `InvalidArgument` outside these ranges and for a seed whose seed hash is 0, and with
    /// `OutOfMemory`.
    pub fn new(
        alloc: A,
        lg_k: u8,
        resize_factor: ResizeFactor,
        starting_theta: u64,
        seed: u64,
        policy: P,
    ) -> Result<Self, Error>
        ensures made { IfOk result (λ u. u ≡ empty_union lg_k starting_theta (seed_hash seed) policy) }
        ensures refused { Refuses result (settings_refusal lg_k starting_theta seed) true }
    {
        let table = UnionTable::new(alloc, lg_k, resize_factor, starting_theta, seed)?;
        Ok(UnionState {
            empty: true,
            failed: false,
            theta: table.retention_theta(),
            table,
            policy,
        })
    }

    /// Makes it empty again, and ends a failure. It allocates nothing.
    pub fn reset(&mut self)
        ensures { self.new ≡ empty_union self.old.lg_k self.old.start self.old.seed_hash self.old.policy }
    {
        self.table.reset();
        self.theta = self.table.retention_theta();
        self.empty = true;
        self.failed = false;
    }
}

impl<E: SlotEntry + Clone, P: UnionMergePolicy<E> + Drop, A: Allocator + Clone> UnionState<
    E,
    P,
    A,
> {
    /// Merges a sketch into the union. An empty sketch changes nothing, and its seed is not checked.
    ///
    /// Refused with `Failed` if the union has failed, whatever the input, and with `InvalidArgument` for a sketch of
    /// another seed; then nothing has changed. Refused with `OutOfMemory`, or with `Policy` if the policy refuses the
    /// entries of a key below every theta so far; then the union has failed.
    pub fn update<S: EntrySketch<Entry = E>>(&mut self, sketch: S) -> Result<(), Error>
        requires clones_equal { ClonesEqual E.is_clone }
        ensures skipped { OnOk result ((S.shown sketch).empty ≡ true → self.new ≡ self.old) }
        ensures joined { OnOk result (
            JoinsShown E.key (P.merges self.old.policy) (P.refuses self.old.policy) self.old self.new
            (S.shown sketch) (S.listing sketch)) }
        ensures united { OnOk result (
            UnitesShown E.key (P.merges self.old.policy) (P.refuses self.old.policy) self.old self.new
            (S.shown sketch) (S.listing sketch)) }
        ensures accepted { OnOk result (update_refusal self.old (S.shown sketch) ≡ None) }
        ensures shown { OnOk result (IsShown (S.shown sketch)) }
        ensures refused { IfErr result
            (IsUpdateError E.key (P.refuses self.old.policy) self.old self.new (S.shown sketch)
            (S.listing sketch)) }
        ensures sound { IsUnion self.old }
        ensures content { IsRetained E.key self.old.content }
    {
        if self.failed {
            return Err(Error::new(ErrorKind::Failed));
        }
        match sketch.metadata() {
            ThetaFamilySketchMetadata::Empty { .. } => Ok(()),
            ThetaFamilySketchMetadata::NonEmpty {
                seed_hash,
                theta,
                ordered,
                ..
            } => {
                if self.table.seed_hash() != seed_hash {
                    return Err(Error::new(ErrorKind::InvalidArgument));
                }
                let least = self.theta.min(theta);
                let merged = merge_entries(
                    &mut self.table,
                    sketch,
                    &self.policy,
                    ordered,
                    0,
                    least,
                );
                self.theta = least.min(self.table.retention_theta());
                if let Err(refused) = merged {
                    self.failed = true;
                    return Err(refused);
                }
                self.empty = false;
                Ok(())
            }
        }
    }

    /// Merges sketches into the union, with the value of one `update` after another, in their order, if these
    /// succeed. Empty sketches change nothing, and their seeds are not checked. If all sketches that aren't empty are
    /// ordered, each is read about as far as the value needs its hashes.
    ///
    /// Refused with `Failed` if the union has failed, whatever the inputs, and with `InvalidArgument` if one of the
    /// sketches that aren't empty has another seed; then nothing has changed. Refused with `OutOfMemory`, or with
    /// `Policy` if the policy refuses the entries of a key below the thetas of the union and of all sketches; then
    /// the union has failed. Whether the policy is called for a key at or above the theta of the result is
    /// unspecified.
    pub fn update_all<S: EntrySketch<Entry = E>>(&mut self, sketches: &[S]) -> Result<(), Error>
        requires clones_equal { ClonesEqual E.is_clone }
        ensures skipped { OnOk result (all_empty S.shown sketches.now ≡ true → self.new ≡ self.old) }
        ensures joined { OnOk result (
            JoinsAll E.key (P.merges self.old.policy) (P.refuses self.old.policy) self.old self.new
            S.shown S.listing sketches.now) }
        ensures united { OnOk result (
            UnitesAll E.key (P.merges self.old.policy) (P.refuses self.old.policy) self.old self.new
            S.shown S.listing sketches.now) }
        ensures accepted { OnOk result (update_all_refusal self.old S.shown sketches.now ≡ None) }
        ensures refused { IfErr result (
            IsUpdateAllError E.key (P.merges self.old.policy) (P.refuses self.old.policy) self.old self.new
            S.shown S.listing sketches.now) }
        ensures sound { IsUnion self.old }
        ensures content { IsRetained E.key self.old.content }
    {
        if self.failed {
            return Err(Error::new(ErrorKind::Failed));
        }
        let inputs = inputs_of(sketches, self.table.seed_hash())?;
        if inputs.empty {
            return Ok(());
        }
        let least = self.theta.min(inputs.theta);
        let merged = merge_all(
            &mut self.table,
            sketches,
            &self.policy,
            least,
            inputs.ordered,
        );
        self.theta = least.min(self.table.retention_theta());
        if let Err(refused) = merged {
            self.failed = true;
            return Err(refused);
        }
        self.empty = false;
        Ok(())
    }

    /// Lowers the nominal entries to 2^`lg_k`, at least 2^4 and no more than now. The union's value is cut to those,
    /// and later values have no more, also after a `reset`. An empty union stays empty. With its own `lg_k` nothing
    /// changes, and nothing is allocated.
    ///
    /// Refused, in this order, with `Failed` if the union has failed, with `InvalidArgument` if `lg_k` isn't from 4
    /// to its own, and with `OutOfMemory`; then the union is unchanged, because the new table is built beside the old
    /// one.
    pub fn lower_lg_k(&mut self, lg_k: u8) -> Result<(), Error>
        requires clones_equal { ClonesEqual E.is_clone }
        ensures after { OnOk result (self.new ≡ lowered E.key lg_k self.old) }
        ensures value { OnOk result
            (union_value E.key self.new ≡ cut_value E.key (2 ^ lg_k) (union_value E.key self.old)) }
        ensures err { OnErr result (self.new ≡ self.old) }
        ensures refused { Refuses result (lower_refusal self.old lg_k) (lower_allocates self.old lg_k) }
        ensures sound { IsUnion self.old }
        ensures content { IsRetained E.key self.old.content }
    {
        if self.failed {
            return Err(Error::new(ErrorKind::Failed));
        }
        let own = self.table.lg_nom_size();
        if lg_k < MIN_LG_K || lg_k > own {
            return Err(Error::new(ErrorKind::InvalidArgument));
        }
        if lg_k == own {
            return Ok(());
        }
        let smaller = self.table.to_smaller_table(lg_k, self.theta)?;
        self.theta = smaller.retention_theta();
        self.table = smaller;
        Ok(())
    }

    /// Bytes taken by the slots of its table, including free ones, and by lists of entries, if more than 512 hashes
    /// shared a path in the slots.
    pub fn estimated_size(&self) -> usize {
        self.table.estimated_size()
    }

    /// Returns its value. The result is ordered if `ordered` is true, if it is empty, or if it has one entry at the
    /// greatest theta. The union doesn't change. Refused with `Failed` if the union has failed, and with
    /// `OutOfMemory`.
    pub fn to_compact_sketch_state(&self, ordered: bool) -> Result<CompactSketchState<E, A>, Error>
        requires clones_equal { ClonesEqual E.is_clone }
        ensures ok { IfOk result (IsAnswer E.key (union_value E.key self.now) self.now.seed_hash ordered) }
        ensures refused { Refuses result (failure self.now.failed) (not self.now.failed) }
    {
        if self.failed {
            return Err(Error::new(ErrorKind::Failed));
        }
        if self.empty {
            let alloc = self.table.allocator().clone()?;
            return Ok(CompactSketchState::empty(alloc, self.table.seed_hash()));
        }
        self.table.to_cut_state(self.theta, ordered)
    }
}
