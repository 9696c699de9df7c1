//! The pointers of readers, by the types of their objects, as `pointers` has those of handles.
ghost use Rattle.std.specs.Prelude.{◌≡◌};
ghost use Rattle.std.specs.Borrow.{sem, Lends};
ghost use Rattle.c_objects.specs.contracts.batch.SeededBatch as batch;
ghost use Rattle.c_objects.specs.contracts.compact.CompactSketch as compact;
ghost use Rattle.c_objects.specs.contracts.compact_sums.CompactSums as compact_sums;
ghost use Rattle.c_objects.specs.contracts.intersection.SeededIntersection as intersection;
ghost use Rattle.c_objects.specs.contracts.sums.SeededSums as sums;
ghost use Rattle.c_objects.specs.contracts.sums_intersection.SeededSumsIntersection as sums_intersection;
ghost use Rattle.c_objects.specs.contracts.sums_union.SeededSumsUnion as sums_union;
ghost use Rattle.c_objects.specs.contracts.theta.SeededSketch as theta;
ghost use Rattle.c_objects.specs.contracts.union.SeededUnion as union;
ghost use Rattle.c_handles.specs.contracts.reader.Reader as reader;
ghost use Rattle.c_handles.specs.contracts.readers.BatchReader as batch_reader;
ghost use Rattle.c_handles.specs.contracts.readers.CompactReader as compact_reader;
ghost use Rattle.c_handles.specs.contracts.readers.CompactSumsReader as compact_sums_reader;
ghost use Rattle.c_handles.specs.contracts.readers.IntersectionReader as intersection_reader;
ghost use Rattle.c_handles.specs.contracts.readers.SumsReader as sums_reader;
ghost use Rattle.c_handles.specs.contracts.readers.SumsIntersectionReader as sums_intersection_reader;
ghost use Rattle.c_handles.specs.contracts.readers.SumsUnionReader as sums_union_reader;
ghost use Rattle.c_handles.specs.contracts.readers.ThetaReader as theta_reader;
ghost use Rattle.c_handles.specs.contracts.readers.UnionReader as union_reader;

use crate::reader::Reader;
use crate::readers::{
    BatchReader, CompactReader, CompactSumsReader, IntersectionReader, SumsIntersectionReader,
    SumsReader, SumsUnionReader, ThetaReader, UnionReader,
};
use c_objects::batch::SeededBatch;
use c_objects::compact::CompactSketch;
use c_objects::compact_sums::CompactSums;
use c_objects::intersection::SeededIntersection;
use c_objects::sums::SeededSums;
use c_objects::sums_intersection::SeededSumsIntersection;
use c_objects::sums_union::SeededSumsUnion;
use c_objects::theta::SeededSketch;
use c_objects::union::SeededUnion;

impl ThetaReader {
    /// The pointer of the reader.
    #[inline(always)]
    pub fn reader(&mut self) -> &mut Reader<SeededSketch>
        ensures* writes_back { sem 𝓛 (Lends theta_reader.the_row (reader.the_row theta.the_row)
            self.entry result (λ w. record { at = w.at; loan = w.loan; share = w.share; value = w.value })) }
        ensures same { result.now ≡
            record { at = self.old.at; loan = self.old.loan; share = self.old.share; value = self.old.value } }
    {
        let at = &raw mut *self as *mut Reader<SeededSketch>;
        unsafe { &mut *at }
    }
}

impl CompactReader {
    /// The pointer of the reader.
    #[inline(always)]
    pub fn reader(&mut self) -> &mut Reader<CompactSketch>
        ensures* writes_back { sem 𝓛 (Lends compact_reader.the_row (reader.the_row compact.the_row)
            self.entry result (λ w. record { at = w.at; loan = w.loan; share = w.share; value = w.value })) }
        ensures same { result.now ≡
            record { at = self.old.at; loan = self.old.loan; share = self.old.share; value = self.old.value } }
    {
        let at = &raw mut *self as *mut Reader<CompactSketch>;
        unsafe { &mut *at }
    }
}

impl BatchReader {
    /// The pointer of the reader.
    #[inline(always)]
    pub fn reader(&mut self) -> &mut Reader<SeededBatch>
        ensures* writes_back { sem 𝓛 (Lends batch_reader.the_row (reader.the_row batch.the_row)
            self.entry result (λ w. record { at = w.at; loan = w.loan; share = w.share; value = w.value })) }
        ensures same { result.now ≡
            record { at = self.old.at; loan = self.old.loan; share = self.old.share; value = self.old.value } }
    {
        let at = &raw mut *self as *mut Reader<SeededBatch>;
        unsafe { &mut *at }
    }
}

impl UnionReader {
    /// The pointer of the reader.
    #[inline(always)]
    pub fn reader(&mut self) -> &mut Reader<SeededUnion>
        ensures* writes_back { sem 𝓛 (Lends union_reader.the_row (reader.the_row union.the_row)
            self.entry result (λ w. record { at = w.at; loan = w.loan; share = w.share; value = w.value })) }
        ensures same { result.now ≡
            record { at = self.old.at; loan = self.old.loan; share = self.old.share; value = self.old.value } }
    {
        let at = &raw mut *self as *mut Reader<SeededUnion>;
        unsafe { &mut *at }
    }
}

impl IntersectionReader {
    /// The pointer of the reader.
    #[inline(always)]
    pub fn reader(&mut self) -> &mut Reader<SeededIntersection>
        ensures* writes_back { sem 𝓛 (Lends intersection_reader.the_row (reader.the_row intersection.the_row)
            self.entry result (λ w. record { at = w.at; loan = w.loan; share = w.share; value = w.value })) }
        ensures same { result.now ≡
            record { at = self.old.at; loan = self.old.loan; share = self.old.share; value = self.old.value } }
    {
        let at = &raw mut *self as *mut Reader<SeededIntersection>;
        unsafe { &mut *at }
    }
}

impl SumsReader {
    /// The pointer of the reader.
    #[inline(always)]
    pub fn reader(&mut self) -> &mut Reader<SeededSums>
        ensures* writes_back { sem 𝓛 (Lends sums_reader.the_row (reader.the_row sums.the_row)
            self.entry result (λ w. record { at = w.at; loan = w.loan; share = w.share; value = w.value })) }
        ensures same { result.now ≡
            record { at = self.old.at; loan = self.old.loan; share = self.old.share; value = self.old.value } }
    {
        let at = &raw mut *self as *mut Reader<SeededSums>;
        unsafe { &mut *at }
    }
}

impl CompactSumsReader {
    /// The pointer of the reader.
    #[inline(always)]
    pub fn reader(&mut self) -> &mut Reader<CompactSums>
        ensures* writes_back { sem 𝓛 (Lends compact_sums_reader.the_row (reader.the_row compact_sums.the_row)
            self.entry result (λ w. record { at = w.at; loan = w.loan; share = w.share; value = w.value })) }
        ensures same { result.now ≡
            record { at = self.old.at; loan = self.old.loan; share = self.old.share; value = self.old.value } }
    {
        let at = &raw mut *self as *mut Reader<CompactSums>;
        unsafe { &mut *at }
    }
}

impl SumsUnionReader {
    /// The pointer of the reader.
    #[inline(always)]
    pub fn reader(&mut self) -> &mut Reader<SeededSumsUnion>
        ensures* writes_back { sem 𝓛 (Lends sums_union_reader.the_row (reader.the_row sums_union.the_row)
            self.entry result (λ w. record { at = w.at; loan = w.loan; share = w.share; value = w.value })) }
        ensures same { result.now ≡
            record { at = self.old.at; loan = self.old.loan; share = self.old.share; value = self.old.value } }
    {
        let at = &raw mut *self as *mut Reader<SeededSumsUnion>;
        unsafe { &mut *at }
    }
}

impl SumsIntersectionReader {
    /// The pointer of the reader.
    #[inline(always)]
    pub fn reader(&mut self) -> &mut Reader<SeededSumsIntersection>
        ensures* writes_back { sem 𝓛 (Lends sums_intersection_reader.the_row (reader.the_row sums_intersection.the_row)
            self.entry result (λ w. record { at = w.at; loan = w.loan; share = w.share; value = w.value })) }
        ensures same { result.now ≡
            record { at = self.old.at; loan = self.old.loan; share = self.old.share; value = self.old.value } }
    {
        let at = &raw mut *self as *mut Reader<SeededSumsIntersection>;
        unsafe { &mut *at }
    }
}
