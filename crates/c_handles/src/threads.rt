//! Objects on more than one thread.

use c_objects::batch::SeededBatch;
use c_objects::compact::CompactSketch;
use c_objects::compact_sums::CompactSums;
use c_objects::intersection::SeededIntersection;
use c_objects::sums::SeededSums;
use c_objects::sums_intersection::SeededSumsIntersection;
use c_objects::sums_union::SeededSumsUnion;
use c_objects::theta::SeededSketch;
use c_objects::union::SeededUnion;
use keys_sketches::OpenText;

fn is_send<T: Send>() {}

fn is_sync<T: Sync>() {}

/// Each object may be used by another thread than the one that made it, by one thread at a time: its type is `Send`.
fn objects_are_send() {
    is_send::<SeededSketch>();
    is_send::<CompactSketch>();
    is_send::<OpenText>();
    is_send::<SeededBatch>();
    is_send::<SeededUnion>();
    is_send::<SeededIntersection>();
    is_send::<SeededSums>();
    is_send::<CompactSums>();
    is_send::<SeededSumsUnion>();
    is_send::<SeededSumsIntersection>();
}

/// Each object that is read may be read by several threads at once: its type is `Sync`.
fn objects_are_sync() {
    is_sync::<SeededSketch>();
    is_sync::<CompactSketch>();
    is_sync::<SeededBatch>();
    is_sync::<SeededUnion>();
    is_sync::<SeededIntersection>();
    is_sync::<SeededSums>();
    is_sync::<CompactSums>();
    is_sync::<SeededSumsUnion>();
    is_sync::<SeededSumsIntersection>();
}
