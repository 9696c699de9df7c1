//! The pointers of handles, by the types of their objects.
//!
//! A handle and its `Owned` are the same bytes and own the same, so a `&mut` to the one is a `&mut` to the other.
ghost use Rattle.std.specs.Prelude.{◌≡◌};
ghost use Rattle.std.specs.Borrow.{sem, Lends};
ghost use Rattle.keys_sketches.specs.contracts.pieces.OpenText as text;
ghost use Rattle.c_objects.specs.contracts.batch.SeededBatch as batch;
ghost use Rattle.c_objects.specs.contracts.compact.CompactSketch as compact;
ghost use Rattle.c_objects.specs.contracts.compact_sums.CompactSums as compact_sums;
ghost use Rattle.c_handles.specs.contracts.handles.BatchHandle as batch_handle;
ghost use Rattle.c_handles.specs.contracts.handles.CompactHandle as compact_handle;
ghost use Rattle.c_handles.specs.contracts.handles.CompactSumsHandle as compact_sums_handle;
ghost use Rattle.c_handles.specs.contracts.handles.IntersectionHandle as intersection_handle;
ghost use Rattle.c_handles.specs.contracts.handles.SumsHandle as sums_handle;
ghost use Rattle.c_handles.specs.contracts.handles.SumsIntersectionHandle as sums_intersection_handle;
ghost use Rattle.c_handles.specs.contracts.handles.SumsUnionHandle as sums_union_handle;
ghost use Rattle.c_handles.specs.contracts.handles.TextHandle as text_handle;
ghost use Rattle.c_handles.specs.contracts.handles.ThetaHandle as theta_handle;
ghost use Rattle.c_handles.specs.contracts.handles.UnionHandle as union_handle;
ghost use Rattle.c_objects.specs.contracts.intersection.SeededIntersection as intersection;
ghost use Rattle.c_handles.specs.contracts.owned.Owned as owned;
ghost use Rattle.c_objects.specs.contracts.sums.SeededSums as sums;
ghost use Rattle.c_objects.specs.contracts.sums_intersection.SeededSumsIntersection as sums_intersection;
ghost use Rattle.c_objects.specs.contracts.sums_union.SeededSumsUnion as sums_union;
ghost use Rattle.c_objects.specs.contracts.theta.SeededSketch as theta;
ghost use Rattle.c_objects.specs.contracts.union.SeededUnion as union;

use crate::handles::{
    BatchHandle, CompactHandle, CompactSumsHandle, IntersectionHandle, SumsHandle,
    SumsIntersectionHandle, SumsUnionHandle, TextHandle, ThetaHandle, UnionHandle,
};
use crate::owned::Owned;
use c_objects::batch::SeededBatch;
use c_objects::compact::CompactSketch;
use c_objects::compact_sums::CompactSums;
use c_objects::intersection::SeededIntersection;
use c_objects::sums::SeededSums;
use c_objects::sums_intersection::SeededSumsIntersection;
use c_objects::sums_union::SeededSumsUnion;
use c_objects::theta::SeededSketch;
use c_objects::union::SeededUnion;
use keys_sketches::OpenText;

impl ThetaHandle {
    /// The pointer of the handle.
    #[inline(always)]
    pub fn owned(&mut self) -> &mut Owned<SeededSketch>
        ensures* writes_back { sem 𝓛 (Lends theta_handle.the_row (owned.the_row theta.the_row)
            self.entry result (λ w. record { at = w.at; value = w.value })) }
        ensures same { result.now ≡ record { at = self.old.at; value = self.old.value } }
    {
        let at = &raw mut *self as *mut Owned<SeededSketch>;
        unsafe { &mut *at }
    }
}

impl CompactHandle {
    /// The pointer of the handle.
    #[inline(always)]
    pub fn owned(&mut self) -> &mut Owned<CompactSketch>
        ensures* writes_back { sem 𝓛 (Lends compact_handle.the_row (owned.the_row compact.the_row)
            self.entry result (λ w. record { at = w.at; value = w.value })) }
        ensures same { result.now ≡ record { at = self.old.at; value = self.old.value } }
    {
        let at = &raw mut *self as *mut Owned<CompactSketch>;
        unsafe { &mut *at }
    }
}

impl TextHandle {
    /// The pointer of the handle.
    #[inline(always)]
    pub fn owned(&mut self) -> &mut Owned<OpenText>
        ensures* writes_back { sem 𝓛 (Lends text_handle.the_row (owned.the_row text.the_row)
            self.entry result (λ w. record { at = w.at; value = w.value })) }
        ensures same { result.now ≡ record { at = self.old.at; value = self.old.value } }
    {
        let at = &raw mut *self as *mut Owned<OpenText>;
        unsafe { &mut *at }
    }
}

impl BatchHandle {
    /// The pointer of the handle.
    #[inline(always)]
    pub fn owned(&mut self) -> &mut Owned<SeededBatch>
        ensures* writes_back { sem 𝓛 (Lends batch_handle.the_row (owned.the_row batch.the_row)
            self.entry result (λ w. record { at = w.at; value = w.value })) }
        ensures same { result.now ≡ record { at = self.old.at; value = self.old.value } }
    {
        let at = &raw mut *self as *mut Owned<SeededBatch>;
        unsafe { &mut *at }
    }
}

impl UnionHandle {
    /// The pointer of the handle.
    #[inline(always)]
    pub fn owned(&mut self) -> &mut Owned<SeededUnion>
        ensures* writes_back { sem 𝓛 (Lends union_handle.the_row (owned.the_row union.the_row)
            self.entry result (λ w. record { at = w.at; value = w.value })) }
        ensures same { result.now ≡ record { at = self.old.at; value = self.old.value } }
    {
        let at = &raw mut *self as *mut Owned<SeededUnion>;
        unsafe { &mut *at }
    }
}

impl IntersectionHandle {
    /// The pointer of the handle.
    #[inline(always)]
    pub fn owned(&mut self) -> &mut Owned<SeededIntersection>
        ensures* writes_back { sem 𝓛 (Lends intersection_handle.the_row (owned.the_row intersection.the_row)
            self.entry result (λ w. record { at = w.at; value = w.value })) }
        ensures same { result.now ≡ record { at = self.old.at; value = self.old.value } }
    {
        let at = &raw mut *self as *mut Owned<SeededIntersection>;
        unsafe { &mut *at }
    }
}

impl SumsHandle {
    /// The pointer of the handle.
    #[inline(always)]
    pub fn owned(&mut self) -> &mut Owned<SeededSums>
        ensures* writes_back { sem 𝓛 (Lends sums_handle.the_row (owned.the_row sums.the_row)
            self.entry result (λ w. record { at = w.at; value = w.value })) }
        ensures same { result.now ≡ record { at = self.old.at; value = self.old.value } }
    {
        let at = &raw mut *self as *mut Owned<SeededSums>;
        unsafe { &mut *at }
    }
}

impl CompactSumsHandle {
    /// The pointer of the handle.
    #[inline(always)]
    pub fn owned(&mut self) -> &mut Owned<CompactSums>
        ensures* writes_back { sem 𝓛 (Lends compact_sums_handle.the_row (owned.the_row compact_sums.the_row)
            self.entry result (λ w. record { at = w.at; value = w.value })) }
        ensures same { result.now ≡ record { at = self.old.at; value = self.old.value } }
    {
        let at = &raw mut *self as *mut Owned<CompactSums>;
        unsafe { &mut *at }
    }
}

impl SumsUnionHandle {
    /// The pointer of the handle.
    #[inline(always)]
    pub fn owned(&mut self) -> &mut Owned<SeededSumsUnion>
        ensures* writes_back { sem 𝓛 (Lends sums_union_handle.the_row (owned.the_row sums_union.the_row)
            self.entry result (λ w. record { at = w.at; value = w.value })) }
        ensures same { result.now ≡ record { at = self.old.at; value = self.old.value } }
    {
        let at = &raw mut *self as *mut Owned<SeededSumsUnion>;
        unsafe { &mut *at }
    }
}

impl SumsIntersectionHandle {
    /// The pointer of the handle.
    #[inline(always)]
    pub fn owned(&mut self) -> &mut Owned<SeededSumsIntersection>
        ensures* writes_back { sem 𝓛 (Lends sums_intersection_handle.the_row (owned.the_row sums_intersection.the_row)
            self.entry result (λ w. record { at = w.at; value = w.value })) }
        ensures same { result.now ≡ record { at = self.old.at; value = self.old.value } }
    {
        let at = &raw mut *self as *mut Owned<SeededSumsIntersection>;
        unsafe { &mut *at }
    }
}
