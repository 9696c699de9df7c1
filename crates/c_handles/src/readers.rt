//! The handles of C that a call only reads, one type for each kind of object.
//!
//! A reader is a copy of a handle's pointer, which the C part makes for one call. Its object is lent by `&`, to as
//! many readers as there are, and no call changes it meanwhile.
ghost use Rattle.std.specs.Prelude.{ℕ, Option};
ghost use Rattle.std.specs.Coded.{coded_option};
ghost use Rattle.c_handles.specs.Handle.{reader_owns};
ghost use Rattle.c_objects.specs.contracts.batch.SeededBatch as seeded_batch;
ghost use Rattle.c_objects.specs.contracts.compact.CompactSketch as compact_sketch;
ghost use Rattle.c_objects.specs.contracts.compact_sums.CompactSums as compact_sums;
ghost use Rattle.c_objects.specs.contracts.intersection.SeededIntersection as seeded_intersection;
ghost use Rattle.c_objects.specs.contracts.sums.SeededSums as seeded_sums;
ghost use Rattle.c_objects.specs.contracts.sums_intersection.SeededSumsIntersection as seeded_sums_intersection;
ghost use Rattle.c_objects.specs.contracts.sums_union.SeededSumsUnion as seeded_sums_union;
ghost use Rattle.c_objects.specs.contracts.theta.SeededSketch as seeded_sketch;
ghost use Rattle.c_objects.specs.contracts.union.SeededUnion as seeded_union;
ghost use Rattle.c_objects.specs.declared.batch.SeededBatch.{SeededBatch};
ghost use Rattle.c_objects.specs.declared.compact.CompactSketch.{CompactSketch};
ghost use Rattle.c_objects.specs.declared.compact_sums.CompactSums.{CompactSums};
ghost use Rattle.c_objects.specs.declared.intersection.SeededIntersection.{SeededIntersection};
ghost use Rattle.c_objects.specs.declared.sums.SeededSums.{SeededSums};
ghost use Rattle.c_objects.specs.declared.sums_intersection.SeededSumsIntersection.{SeededSumsIntersection};
ghost use Rattle.c_objects.specs.declared.sums_union.SeededSumsUnion.{SeededSumsUnion};
ghost use Rattle.c_objects.specs.declared.theta.SeededSketch.{SeededSketch};
ghost use Rattle.c_objects.specs.declared.union.SeededUnion.{SeededUnion};
ghost use base.Fml.{Share};
ghost use base.SetCodes.{coded_share};

use crate::opaque::Opaque;
use std::marker::Model;

/// A handle of C that is read: a theta sketch that takes updates, or none.
#[repr(C)]
pub struct ThetaReader {
    at: *const Opaque,
    pub ghost loan: { ℕ },
    pub ghost share: { Share } by { coded_share },
    pub ghost value: { Option SeededSketch } by { coded_option seeded_sketch.the_row.coded },
}

impl Model for ThetaReader {
    ghost also_owns = { λ r. reader_owns seeded_sketch.the_row r.at r.loan r.share r.value };
}

/// A handle of C that is read: a compact theta sketch, or none.
#[repr(C)]
pub struct CompactReader {
    at: *const Opaque,
    pub ghost loan: { ℕ },
    pub ghost share: { Share } by { coded_share },
    pub ghost value: { Option CompactSketch } by { coded_option compact_sketch.the_row.coded },
}

impl Model for CompactReader {
    ghost also_owns = { λ r. reader_owns compact_sketch.the_row r.at r.loan r.share r.value };
}

/// A handle of C that is read: a batch of theta sketches, or none.
#[repr(C)]
pub struct BatchReader {
    at: *const Opaque,
    pub ghost loan: { ℕ },
    pub ghost share: { Share } by { coded_share },
    pub ghost value: { Option SeededBatch } by { coded_option seeded_batch.the_row.coded },
}

impl Model for BatchReader {
    ghost also_owns = { λ r. reader_owns seeded_batch.the_row r.at r.loan r.share r.value };
}

/// A handle of C that is read: a union of theta sketches, or none.
#[repr(C)]
pub struct UnionReader {
    at: *const Opaque,
    pub ghost loan: { ℕ },
    pub ghost share: { Share } by { coded_share },
    pub ghost value: { Option SeededUnion } by { coded_option seeded_union.the_row.coded },
}

impl Model for UnionReader {
    ghost also_owns = { λ r. reader_owns seeded_union.the_row r.at r.loan r.share r.value };
}

/// A handle of C that is read: an intersection of theta sketches, or none.
#[repr(C)]
pub struct IntersectionReader {
    at: *const Opaque,
    pub ghost loan: { ℕ },
    pub ghost share: { Share } by { coded_share },
    pub ghost value: { Option SeededIntersection } by { coded_option seeded_intersection.the_row.coded },
}

impl Model for IntersectionReader {
    ghost also_owns = { λ r. reader_owns seeded_intersection.the_row r.at r.loan r.share r.value };
}

/// A handle of C that is read: a tuple sketch of sums, or none.
#[repr(C)]
pub struct SumsReader {
    at: *const Opaque,
    pub ghost loan: { ℕ },
    pub ghost share: { Share } by { coded_share },
    pub ghost value: { Option SeededSums } by { coded_option seeded_sums.the_row.coded },
}

impl Model for SumsReader {
    ghost also_owns = { λ r. reader_owns seeded_sums.the_row r.at r.loan r.share r.value };
}

/// A handle of C that is read: a compact tuple sketch of sums, or none.
#[repr(C)]
pub struct CompactSumsReader {
    at: *const Opaque,
    pub ghost loan: { ℕ },
    pub ghost share: { Share } by { coded_share },
    pub ghost value: { Option CompactSums } by { coded_option compact_sums.the_row.coded },
}

impl Model for CompactSumsReader {
    ghost also_owns = { λ r. reader_owns compact_sums.the_row r.at r.loan r.share r.value };
}

/// A handle of C that is read: a union of tuple sketches of sums, or none.
#[repr(C)]
pub struct SumsUnionReader {
    at: *const Opaque,
    pub ghost loan: { ℕ },
    pub ghost share: { Share } by { coded_share },
    pub ghost value: { Option SeededSumsUnion } by { coded_option seeded_sums_union.the_row.coded },
}

impl Model for SumsUnionReader {
    ghost also_owns = { λ r. reader_owns seeded_sums_union.the_row r.at r.loan r.share r.value };
}

/// A handle of C that is read: an intersection of tuple sketches of sums, or none.
#[repr(C)]
pub struct SumsIntersectionReader {
    at: *const Opaque,
    pub ghost loan: { ℕ },
    pub ghost share: { Share } by { coded_share },
    pub ghost value: { Option SeededSumsIntersection } by { coded_option seeded_sums_intersection.the_row.coded },
}

impl Model for SumsIntersectionReader {
    ghost also_owns = { λ r. reader_owns seeded_sums_intersection.the_row r.at r.loan r.share r.value };
}
