//! What a pointer of C points to.

/// An object of this library, which C can't see into.
#[repr(C)]
#[derive(Drop)]
pub struct Opaque {
    unused: u8,
}
