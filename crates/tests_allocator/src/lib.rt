//! An allocator for tests: it counts the requests for memory and their bytes, and refuses the requests that a test
//! chooses.
//!
//! It takes granted memory from another allocator, and returns each block to it. A test passes it by reference, so
//! that the test can read the count and choose other requests while the memory is in use.
#![tactic(auto)]

use std::alloc::{AllocError, Allocator};
use std::cell::Cell;

/// Which requests are refused. Requests are counted from 0.
#[derive(Clone, Copy, Debug, PartialEq, Eq)]
pub enum Refusal {
    /// None.
    Never,
    /// The request of this number alone.
    Only(u64),
    /// The request of this number and all after it.
    From(u64),
}

/// The number of requests so far, their bytes in all, and which requests are refused.
#[derive(Drop)]
struct Requests {
    seen: Cell<u64>,
    bytes: Cell<u64>,
    refusal: Cell<Refusal>,
}

impl Requests {
    /// Counts a request for `size` bytes, and returns whether it is granted.
    fn grants(&self, size: usize) -> bool {
        let request = self.seen.get();
        self.seen.set(request.saturating_add(1));
        self.bytes.set(self.bytes.get().saturating_add(size as u64));
        match self.refusal.get() {
            Refusal::Never => true,
            Refusal::Only(refused) => request != refused,
            Refusal::From(first) => request < first,
        }
    }
}

/// An allocator that passes each request to another one, except those that it refuses.
///
/// Making a block larger or smaller is one request; returning a block is none.
#[derive(Drop)]
pub struct Refusing<B: Allocator> {
    inner: B,
    requests: Requests,
}

impl<B: Allocator> Refusing<B> {
    /// An allocator over `inner` that has seen no request and refuses none.
    pub fn new(inner: B) -> Refusing<B> {
        Refusing {
            inner,
            requests: Requests {
                seen: Cell::new(0),
                bytes: Cell::new(0),
                refusal: Cell::new(Refusal::Never),
            },
        }
    }

    /// Counts requests and bytes from 0 again, and refuses the requests of `refusal` from now on.
    pub fn restart(&self, refusal: Refusal) {
        self.requests.seen.set(0);
        self.requests.bytes.set(0);
        self.requests.refusal.set(refusal);
    }

    /// The allocator that grants the requests. A request to it directly is neither counted nor refused.
    pub fn inner(&self) -> &B {
        &self.inner
    }

    /// The number of requests since the last `restart`, including the refused ones.
    pub fn seen(&self) -> u64 {
        self.requests.seen.get()
    }

    /// The bytes of all requests since the last `restart`, including the refused ones; `u64::MAX` if there are more.
    /// A block that is made larger or smaller counts with its new size.
    pub fn bytes(&self) -> u64 {
        self.requests.bytes.get()
    }
}

unsafe impl<B: Allocator> Allocator for Refusing<B> {
    ghost dealloc_token = { λ heap ty ptr. B.dealloc_token heap.inner ty ptr };

    fn allocate(&self, size: usize, align: usize) -> Result<*mut u8, AllocError> {
        if self.requests.grants(size) {
            return self.inner.allocate(size, align);
        }
        Err(AllocError)
    }

    unsafe fn deallocate(&self, ptr: *mut u8, size: usize, align: usize) {
        self.inner.deallocate(ptr, size, align);
    }
}
