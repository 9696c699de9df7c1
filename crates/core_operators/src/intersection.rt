//! Intersections.
ghost use Rattle.std.specs.Prelude.{◌≡◌, ◌==◌, ◌<◌, ◌^◌, ◌⊎◌, Some, None, true, false, is_some, if◌then◌else◌};
ghost use Rattle.std.specs.Prelude.{length, min, IfOk, IfErr, OnOk};
ghost use Rattle.sketch_base.specs.Seed.{seed_hash};
ghost use Rattle.core_operators.specs.Intersection.{Intersection, IsIntersection, IsMet, IsAnswerIfAny};
ghost use Rattle.core_operators.specs.Intersection.{new_intersection, outcome_value, content_of, seed_refusal};
ghost use Rattle.core_operators.specs.Intersection.{intersect_refusal, is_settled_outcome, is_begun};
ghost use Rattle.core_operators.specs.Intersection.{is_nothing_left, IsIntersectError, IsMetMap};
ghost use Rattle.core_operators.specs.declared.intersection.Outcome.TheVariants.{Nothing, Held};
ghost use Rattle.core_laws.specs.Refusal.{Refuses};
ghost use Rattle.core_laws.specs.Values.{NonEmpty};
ghost use Rattle.core_laws.specs.Cuts.{IsRetained};
ghost use Rattle.core_laws.specs.Shown.{IsShown};
ghost use Rattle.core_laws.specs.Entries.{ClonesEqual};
ghost use Rattle.core_operators.specs.Union.{IsMergeRefusal};

use crate::a_not_b::state_of;
use crate::ascending::ascending_entries;
use crate::share::shared_with;
use crate::view::{EntrySketch, ThetaFamilySketchMetadata};
use core_compact::CompactSketchState;
use core_laws::MAX_THETA;
use core_policies::IntersectionMergePolicy;
use core_slots::{Count, SlotEntry};
use sketch_base::{Error, ErrorKind, compute_seed_hash};
use std::alloc::{Allocator, Global};
use std::marker::Model;

/// What the value of an intersection is.
#[derive(Clone, Copy)]
enum Outcome {
    /// There was no input yet, so there is no value.
    Unbegun,
    /// The value is Empty, and stays so.
    Nothing,
    /// The value is the entries and theta.
    Held,
}

impl Outcome {
    /// Whether it no longer changes.
    fn is_settled(self) -> bool
        ensures { result ≡ is_settled_outcome self }
    {
        match self {
            Outcome::Nothing => true,
            Outcome::Unbegun | Outcome::Held => false,
        }
    }

    /// Whether there was an input.
    fn has_begun(self) -> bool
        ensures { result ≡ is_begun self }
    {
        match self {
            Outcome::Unbegun => false,
            Outcome::Nothing | Outcome::Held => true,
        }
    }
}

/// An intersection of sketches, passed one by one.
///
/// It has no value before its first input. Its value has the hashes that all inputs share, below their least theta;
/// the policy combines the entries of a hash, in the order of the calls. The value is Empty once an input is, or once
/// inputs that have hashes share none while theta is still the greatest. A refused update changes nothing.
///
/// It keeps its entries in ascending order. An update reads them and its input side by side: whatever the hashes are,
/// it compares at most as many pairs of hashes as both have (`shared_with`), besides the sort of an input that isn't
/// known to be ordered. If that input has 1024 hashes or more, and at least about half as many as the intersection,
/// most of its hashes that the intersection lacks are dropped before the sort, by a test of one bit each.
#[derive(Drop)]
pub struct IntersectionState<E: SlotEntry, P, A: Allocator = Global> {
    outcome: Outcome,
    entries: Vec<E, A>,
    theta: u64,
    seed_hash: u16,
    policy: P,
}

impl<E: SlotEntry, P, A: Allocator> Model for IntersectionState<E, P, A> {
    ghost use Rattle.core_operators.specs.Intersection.{Intersection, IsKeptIn, outcome_value};

    ghost Value = { Intersection E P };

    ghost view = { λ i. record {
      result = outcome_value i.outcome (record { entries = i.entries.items; theta = i.theta });
      seed_hash = i.seed_hash;
      policy = i.policy;
    } };

    ghost invariant = { λ i. IsKeptIn E.key
        (record { entries = i.entries.items; theta = i.theta })
        (record {
          result = outcome_value i.outcome (record { entries = i.entries.items; theta = i.theta });
          seed_hash = i.seed_hash;
          policy = i.policy;
        }) };
}

impl<E: SlotEntry + Drop, P: Drop, A: Allocator + Drop> IntersectionState<E, P, A> {
    /// A new intersection of sketches of this seed, without a value. It allocates nothing.
    ///
    /// Refused with `InvalidArgument` for a seed whose seed hash is 0.
    pub fn new(alloc: A, seed: u64, policy: P) -> Result<Self, Error>
        ensures made { IfOk result (λ i. i ≡ new_intersection (seed_hash seed) policy) }
        ensures refused { Refuses result (seed_refusal seed) false }
    {
        let seed_hash = compute_seed_hash(seed, ErrorKind::InvalidArgument)?;
        Ok(IntersectionState {
            outcome: Outcome::Unbegun,
            entries: Vec::new(alloc),
            theta: MAX_THETA,
            seed_hash,
            policy,
        })
    }
}

impl<E: SlotEntry, P, A: Allocator> IntersectionState<E, P, A> {
    /// Whether there was an input, so that there is a value.
    pub fn has_result(&self) -> bool
        ensures { result ≡ is_some self.now.result }
    {
        self.outcome.has_begun()
    }

    /// Bytes taken by its entries.
    pub fn estimated_size(&self) -> usize {
        size_of_val(self.entries.as_slice())
    }
}

impl<
    E: SlotEntry + Clone,
    P: IntersectionMergePolicy<E> + Drop,
    A: Allocator + Clone,
> IntersectionState<E, P, A> {
    /// Intersects with a sketch. The first rule that applies is used: once Empty, the intersection accepts every
    /// sketch unchecked and stays Empty; an empty sketch makes it Empty, and its seed is not checked; a sketch of
    /// another seed is refused; the first sketch is copied as it is; with any other sketch, it keeps only the hashes
    /// that both have below the lesser theta, and the policy combines each retained entry with the incoming one. If
    /// both had hashes, none is left and theta is the greatest, the value becomes Empty.
    ///
    /// Refused with `InvalidArgument` for a sketch of another seed, with `OutOfMemory`, or with `Policy` if the
    /// policy refuses the entries of a shared hash below the lesser theta; then nothing has changed.
    pub fn update<S: EntrySketch<Entry = E>>(&mut self, sketch: S) -> Result<(), Error>
        requires clones_equal { ClonesEqual E.is_clone }
        ensures met { OnOk result (
            IsMet E.key (P.merges self.old.policy) (P.refuses self.old.policy) self.old self.new (S.shown sketch)
            (S.listing sketch)) }
        ensures made_with { self.new ≡ record self.old { result = self.new.result } }
        ensures accepted { OnOk result (intersect_refusal self.old (S.shown sketch) ≡ None) }
        ensures refused { IfErr result
            (IsIntersectError E.key (P.refuses self.old.policy) self.old self.new (S.shown sketch)
            (S.listing sketch)) }
        ensures sound { IsIntersection self.old }
        ensures content { IsRetained E.key (content_of self.old.result) }
    {
        if self.outcome.is_settled() {
            return Ok(());
        }
        match sketch.metadata() {
            ThetaFamilySketchMetadata::Empty { .. } => {
                self.entries.clear();
                self.outcome = Outcome::Nothing;
                Ok(())
            }
            ThetaFamilySketchMetadata::NonEmpty {
                seed_hash,
                theta,
                ordered,
                num_retained,
            } => {
                if self.seed_hash != seed_hash {
                    return Err(Error::new(ErrorKind::InvalidArgument));
                }
                if !self.outcome.has_begun() {
                    let alloc = self.entries.allocator().clone()?;
                    self.entries = ascending_entries(alloc, sketch, theta, ordered, num_retained)?;
                    self.theta = theta;
                    self.outcome = Outcome::Held;
                    return Ok(());
                }
                let entries = &mut self.entries;
                let own_theta = &mut self.theta;
                let policy = &self.policy;
                let outcome = intersect_entries(
                    entries,
                    own_theta,
                    sketch,
                    policy,
                    ordered,
                    theta,
                    num_retained,
                )?;
                self.outcome = outcome;
                Ok(())
            }
        }
    }

    /// Returns its value, or `None` before its first input. The result is ordered if `ordered` is true, if it is
    /// empty, or if it has one entry at the greatest theta. The intersection doesn't change. Refused with
    /// `OutOfMemory` alone, and only if there is a value.
    pub fn to_compact_sketch_state(
        &self,
        ordered: bool,
    ) -> Result<Option<CompactSketchState<E, A>>, Error>
        requires clones_equal { ClonesEqual E.is_clone }
        ensures ok { IfOk result (IsAnswerIfAny E.key self.now.result self.now.seed_hash ordered) }
        ensures refused { Refuses result None (is_some self.now.result) }
    {
        match self.outcome {
            Outcome::Unbegun => Ok(None),
            Outcome::Nothing => {
                let alloc = self.entries.allocator().clone()?;
                Ok(Some(CompactSketchState::empty(alloc, self.seed_hash)))
            }
            Outcome::Held => {
                let alloc = self.entries.allocator().clone()?;
                let entries = Vec::from_clones(alloc, &self.entries)?;
                Ok(Some(state_of(entries, self.theta, self.seed_hash, false, ordered)))
            }
        }
    }
}

/// Keeps only those ascending entries whose hashes a sketch has too, below the lesser theta, and returns the outcome.
/// The sketch isn't empty, and has this theta and order, and `count` hashes.
///
/// Refused with `OutOfMemory`, or with `Policy` if the policy refuses the entries of a shared hash below the lesser
/// theta; then the entries and their theta are unchanged.
fn intersect_entries<S: EntrySketch, P: IntersectionMergePolicy<S::Entry>, A: Allocator + Clone>(
    entries: &mut Vec<S::Entry, A>,
    own_theta: &mut u64,
    sketch: S,
    policy: &P,
    ordered: bool,
    theta: u64,
    count: usize,
) -> Result<Outcome, Error>
where
    S::Entry: Clone,
    requires clones_equal { ClonesEqual S.Entry.is_clone }
    requires sound { IsShown (S.shown sketch) }
    requires in_order { (S.shown sketch).ordered ≡ ordered }
    requires of_theta { theta ≡ (S.shown sketch).theta }
    requires counted { count ≡ length (S.shown sketch).hashes }
    requires retained { IsRetained S.Entry.key (record { entries = entries.old.items; theta = own_theta.old }) }
    requires limited { length entries.old.items < 2 ^ 32 }
    ensures met { IfOk result (λ o.
        IsMetMap S.Entry.key (P.merges policy.now) (P.refuses policy.now)
        (record { entries = entries.old.items; theta = own_theta.old }) theta (S.listing sketch)
        (outcome_value o (record { entries = entries.new.items; theta = own_theta.new }))) }
    ensures limited { IfOk result (λ _. length entries.new.items < 2 ^ 32) }
    ensures retained { IfOk result (λ _.
        IsRetained S.Entry.key (record { entries = entries.new.items; theta = own_theta.new })) }
    ensures unchanged { IfErr result (λ _. entries.new.items ≡ entries.old.items) }
    ensures same_theta { IfErr result (λ _. own_theta.new ≡ own_theta.old) }
    ensures refused { IfErr result (
        IsMergeRefusal S.Entry.key (P.refuses policy.now) entries.old.items (min own_theta.old theta) (S.listing sketch)) }
{
    let content = entries.len();
    let lesser = (*own_theta).min(theta);
    if content == 0 {
        *own_theta = lesser;
        return Ok(Outcome::Held);
    }
    let mut compared = Count::new();
    let next = shared_with(
        entries,
        sketch,
        policy,
        ordered,
        lesser,
        count,
        &mut compared,
    )?;
    let outcome = outcome_of(lesser, content, count, next.len());
    *entries = next;
    *own_theta = lesser;
    Ok(outcome)
}

/// The outcome if the intersection had `content` hashes, the sketch `arriving`, and both share `shared` below
/// `theta`: Empty if both had some, share none, and theta is the greatest.
fn outcome_of(theta: u64, content: usize, arriving: usize, shared: usize) -> Outcome
    ensures { result ≡ if is_nothing_left theta content arriving shared then Nothing else Held }
{
    if theta == MAX_THETA && content != 0 && arriving != 0 && shared == 0 {
        Outcome::Nothing
    } else {
        Outcome::Held
    }
}
