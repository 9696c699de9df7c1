//! The handles of C, one type for each kind of object.
ghost use Rattle.std.specs.Prelude.{Option};
ghost use Rattle.std.specs.Coded.{coded_option};
ghost use Rattle.c_handles.specs.Handle.{handle_owns};
ghost use Rattle.keys_sketches.specs.contracts.pieces.OpenText as open_text;
ghost use Rattle.keys_sketches.specs.declared.pieces.OpenText.{OpenText};
ghost use Rattle.c_objects.specs.contracts.batch.SeededBatch as seeded_batch;
ghost use Rattle.c_objects.specs.contracts.compact.CompactSketch as compact_sketch;
ghost use Rattle.c_objects.specs.contracts.compact_sums.CompactSums as compact_sums;
ghost use Rattle.c_objects.specs.contracts.intersection.SeededIntersection as seeded_intersection;
ghost use Rattle.c_objects.specs.contracts.sums.SeededSums as seeded_sums;
ghost use Rattle.c_objects.specs.contracts.sums_intersection.SeededSumsIntersection as seeded_sums_intersection;
ghost use Rattle.c_objects.specs.contracts.sums_union.SeededSumsUnion as seeded_sums_union;
ghost use Rattle.c_objects.specs.contracts.theta.SeededSketch as seeded_sketch;
ghost use Rattle.c_objects.specs.contracts.union.SeededUnion as seeded_union;
ghost use Rattle.c_objects.specs.declared.batch.SeededBatch.{SeededBatch};
ghost use Rattle.c_objects.specs.declared.compact.CompactSketch.{CompactSketch};
ghost use Rattle.c_objects.specs.declared.compact_sums.CompactSums.{CompactSums};
ghost use Rattle.c_objects.specs.declared.intersection.SeededIntersection.{SeededIntersection};
ghost use Rattle.c_objects.specs.declared.sums.SeededSums.{SeededSums};
ghost use Rattle.c_objects.specs.declared.sums_intersection.SeededSumsIntersection.{SeededSumsIntersection};
ghost use Rattle.c_objects.specs.declared.sums_union.SeededSumsUnion.{SeededSumsUnion};
ghost use Rattle.c_objects.specs.declared.theta.SeededSketch.{SeededSketch};
ghost use Rattle.c_objects.specs.declared.union.SeededUnion.{SeededUnion};

use crate::opaque::Opaque;
use std::marker::Model;

/// A handle of C: a theta sketch that takes updates, or none.
#[repr(C)]
pub struct ThetaHandle {
    at: *mut Opaque,
    pub ghost value: { Option SeededSketch } by { coded_option seeded_sketch.the_row.coded },
}

impl Model for ThetaHandle {
    ghost also_owns = { λ h. handle_owns seeded_sketch.the_row h.at h.value };
}

/// A handle of C: a compact theta sketch, which never changes, or none.
#[repr(C)]
pub struct CompactHandle {
    at: *mut Opaque,
    pub ghost value: { Option CompactSketch } by { coded_option compact_sketch.the_row.coded },
}

impl Model for CompactHandle {
    ghost also_owns = { λ h. handle_owns compact_sketch.the_row h.at h.value };
}

/// A handle of C: a text whose lines update a sketch, or none.
#[repr(C)]
pub struct TextHandle {
    at: *mut Opaque,
    pub ghost value: { Option OpenText } by { coded_option open_text.the_row.coded },
}

impl Model for TextHandle {
    ghost also_owns = { λ h. handle_owns open_text.the_row h.at h.value };
}

/// A handle of C: a batch of theta sketches, or none.
#[repr(C)]
pub struct BatchHandle {
    at: *mut Opaque,
    pub ghost value: { Option SeededBatch } by { coded_option seeded_batch.the_row.coded },
}

impl Model for BatchHandle {
    ghost also_owns = { λ h. handle_owns seeded_batch.the_row h.at h.value };
}

/// A handle of C: a union of theta sketches, or none.
#[repr(C)]
pub struct UnionHandle {
    at: *mut Opaque,
    pub ghost value: { Option SeededUnion } by { coded_option seeded_union.the_row.coded },
}

impl Model for UnionHandle {
    ghost also_owns = { λ h. handle_owns seeded_union.the_row h.at h.value };
}

/// A handle of C: an intersection of theta sketches, or none.
#[repr(C)]
pub struct IntersectionHandle {
    at: *mut Opaque,
    pub ghost value: { Option SeededIntersection } by { coded_option seeded_intersection.the_row.coded },
}

impl Model for IntersectionHandle {
    ghost also_owns = { λ h. handle_owns seeded_intersection.the_row h.at h.value };
}

/// A handle of C: a tuple sketch whose summaries are sums of 64 bits, or none.
#[repr(C)]
pub struct SumsHandle {
    at: *mut Opaque,
    pub ghost value: { Option SeededSums } by { coded_option seeded_sums.the_row.coded },
}

impl Model for SumsHandle {
    ghost also_owns = { λ h. handle_owns seeded_sums.the_row h.at h.value };
}

/// A handle of C: a compact tuple sketch of sums, which never changes, or none.
#[repr(C)]
pub struct CompactSumsHandle {
    at: *mut Opaque,
    pub ghost value: { Option CompactSums } by { coded_option compact_sums.the_row.coded },
}

impl Model for CompactSumsHandle {
    ghost also_owns = { λ h. handle_owns compact_sums.the_row h.at h.value };
}

/// A handle of C: a union of tuple sketches of sums, or none.
#[repr(C)]
pub struct SumsUnionHandle {
    at: *mut Opaque,
    pub ghost value: { Option SeededSumsUnion } by { coded_option seeded_sums_union.the_row.coded },
}

impl Model for SumsUnionHandle {
    ghost also_owns = { λ h. handle_owns seeded_sums_union.the_row h.at h.value };
}

/// A handle of C: an intersection of tuple sketches of sums, or none.
#[repr(C)]
pub struct SumsIntersectionHandle {
    at: *mut Opaque,
    pub ghost value: { Option SeededSumsIntersection } by { coded_option seeded_sums_intersection.the_row.coded },
}

impl Model for SumsIntersectionHandle {
    ghost also_owns = { λ h. handle_owns seeded_sums_intersection.the_row h.at h.value };
}
