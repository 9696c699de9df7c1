//! Calls on objects of several kinds, once for all. Each returns a status, `INVALID_ARGUMENT` if an object that it
//! needs is missing.
ghost use Rattle.std.specs.Prelude.{◌≡◌, true, option_map};
ghost use Rattle.c_handles.specs.Calls.{OnObject, OnObjectWith, Fills, FillsFrom, FillsFromTwo, WritesValue};
ghost use Rattle.c_handles.specs.Calls.{WritesSome, FillsInOrder, FillsFromTwoInOrder};
ghost use Rattle.c_objects.specs.Bounds.{is_state, wide};
ghost use Rattle.c_objects.specs.Buffer.{WritesOf};
ghost use Rattle.c_objects.specs.Flaws.{FindsIf};
ghost use Rattle.c_objects.specs.Settings.{order_number, valid_order};
ghost use Rattle.c_objects.specs.Status.{IsMemoryRefusal};

use crate::owned::Owned;
use crate::reader::Reader;
use c_objects::bounds::Wide;
use c_objects::buffer::put_made;
use c_objects::flaws::Finding;
use c_objects::objects::{
    Accepts, AcceptsImages, CanCopy, CanReset, CanTrim, FromImage, HasCompact, HasDifference,
    HasForm, HasImage, HasSize, HasState, HasTotal,
};
use c_objects::settings::order_of;
use c_objects::state::State;
use c_objects::status::{INVALID_ARGUMENT, INVALID_DATA, OK};
use std::alloc::Global;

impl<T: HasState> Reader<T> {
    /// Writes the state of the object.
    pub fn state(&self, out: &mut State) -> u32
        ensures state { WritesValue (option_map T.shown self.now.value) out.old result out.new }
        ensures usable { result ≡ 0 → is_state out.new.retained out.new.theta ≡ true }
    {
        match self.get() {
            Some(object) => {
                *out = object.state();
                OK
            }
            None => INVALID_ARGUMENT,
        }
    }
}

impl<T: HasTotal> Reader<T> {
    /// Writes the sum of all sums of the sketch.
    pub fn total(&self, out: &mut Wide) -> u32
        ensures total { WritesValue (option_map (λ s. wide (T.total_sum s)) self.now.value) out.old result out.new }
    {
        match self.get() {
            Some(sketch) => {
                *out = sketch.total();
                OK
            }
            None => INVALID_ARGUMENT,
        }
    }
}

impl<T: HasImage> Reader<T> {
    /// Writes the image of the object to the front of a buffer, and its length.
    pub fn image(&self, out: &mut [u8], length: &mut u64) -> u32
        ensures image { WritesOf T.is_image T.no_image self.now.value out.old length.old result out.new length.new }
    {
        match self.get() {
            Some(object) => put_made(object.image(), out, length),
            None => INVALID_ARGUMENT,
        }
    }
}

impl<T: HasCompact> Reader<T> {
    /// Puts the compact sketch of the object into another pointer, ordered if asked for.
    pub fn compact(&self, alloc: Global, ordered: bool, out: &mut Owned<T::Compact>) -> u32
        ensures made { FillsFrom (T.is_compact ordered) T.no_compact self.now.value out.old.value result
            out.new.value }
    {
        match self.get() {
            Some(object) => out.put_or(alloc, object.compact(ordered)),
            None => INVALID_ARGUMENT,
        }
    }

    /// The same in the order that a number asks for (`order_of`).
    pub fn compact_in(&self, alloc: Global, order: u32, out: &mut Owned<T::Compact>) -> u32
        ensures made { FillsInOrder T.is_compact T.no_compact (valid_order order) self.now.value out.old.value result
            out.new.value }
    {
        match order_of(order) {
            Some(ordered) => self.compact(alloc, ordered, out),
            None => INVALID_ARGUMENT,
        }
    }
}

impl<T: CanCopy> Reader<T> {
    /// Puts a copy of the object into another pointer.
    pub fn copy(&self, alloc: Global, out: &mut Owned<T>) -> u32
        ensures copied { FillsFrom T.is_copy (λ _. IsMemoryRefusal) self.now.value out.old.value result out.new.value }
    {
        match self.get() {
            Some(object) => out.put_or(alloc, object.copy()),
            None => INVALID_ARGUMENT,
        }
    }
}

impl<T: HasDifference> Reader<T> {
    /// Puts the difference of the sketch and that of another pointer into a third pointer.
    pub fn difference(
        &self,
        alloc: Global,
        other: &Reader<T>,
        seed: u64,
        ordered: bool,
        out: &mut Owned<T::Difference>,
    ) -> u32
        ensures made { FillsFromTwo (T.are_of_seed seed) (T.is_difference ordered) (T.no_difference seed)
            self.now.value other.now.value out.old.value result out.new.value }
    {
        match self.get() {
            Some(first) => match other.get() {
                Some(second) => out.put_or(alloc, first.difference(alloc, seed, second, ordered)),
                None => INVALID_ARGUMENT,
            },
            None => INVALID_ARGUMENT,
        }
    }

    /// The same in the order that a number asks for (`order_of`).
    pub fn difference_in(
        &self,
        alloc: Global,
        other: &Reader<T>,
        seed: u64,
        order: u32,
        out: &mut Owned<T::Difference>,
    ) -> u32
        ensures made { FillsFromTwoInOrder (T.are_of_seed seed) T.is_difference (T.no_difference seed)
            (valid_order order) self.now.value other.now.value out.old.value result out.new.value }
    {
        match order_of(order) {
            Some(ordered) => self.difference(alloc, other, seed, ordered, out),
            None => INVALID_ARGUMENT,
        }
    }
}

impl<T: CanTrim> Owned<T> {
    /// Cuts the sketch to its nominal entries.
    pub fn trim(&mut self) -> u32
        ensures { OnObject T.trims self.old.value result self.new.value }
    {
        match self.get() {
            Some(sketch) => sketch.trim(),
            None => INVALID_ARGUMENT,
        }
    }
}

impl<T: CanReset> Owned<T> {
    /// Makes the object empty again.
    pub fn reset(&mut self) -> u32
        ensures { OnObject T.resets self.old.value result self.new.value }
    {
        match self.get() {
            Some(object) => object.reset(),
            None => INVALID_ARGUMENT,
        }
    }
}

impl<T> Owned<T> {
    /// Adds the sketch of another pointer to the inputs of the operator.
    pub fn add<S>(&mut self, sketch: &Reader<S>) -> u32
    where
        T: Accepts<S>,
        ensures { OnObjectWith T.adds sketch.now.value self.old.value result self.new.value }
    {
        match sketch.get() {
            Some(input) => match self.get() {
                Some(operator) => operator.add(input),
                None => INVALID_ARGUMENT,
            },
            None => INVALID_ARGUMENT,
        }
    }
}

impl<T: AcceptsImages> Owned<T> {
    /// Adds the sketch that bytes begin with to the inputs of the operator.
    pub fn add_image(&mut self, alloc: Global, image: &[u8]) -> u32
        ensures { OnObject (T.adds_image image.now) self.old.value result self.new.value }
    {
        match self.get() {
            Some(operator) => operator.add_image(alloc, image),
            None => INVALID_ARGUMENT,
        }
    }
}

impl<T: FromImage> Owned<T> {
    /// Puts the sketch that bytes begin with into the pointer, read under a seed.
    pub fn read(&mut self, alloc: Global, image: &[u8], seed: u64) -> u32
        ensures { Fills (T.is_read image.now seed) (T.is_unread image.now seed) self.old.value result self.new.value }
    {
        self.put_or(alloc, T::read(alloc, image, seed))
    }

    /// Puts the sketch that bytes are, all of them, into the pointer, read under a seed. With status `INVALID_DATA` it
    /// writes why they aren't one.
    pub fn read_whole(&mut self, alloc: Global, image: &[u8], seed: u64, found: &mut Finding) -> u32
        ensures read { Fills (T.is_whole image.now seed) (T.not_whole image.now seed) self.old.value result
            self.new.value }
        ensures found { FindsIf (T.is_finding image.now seed) found.old result found.new }
    {
        let status = self.put_or(alloc, T::read_whole(alloc, image, seed));
        if status == INVALID_DATA {
            *found = T::finding(image, seed);
        }
        status
    }
}

impl<T: HasForm> Reader<T> {
    /// Writes the hash of the sketch's seed.
    pub fn seed_hash(&self, out: &mut u32) -> u32
        ensures { WritesValue (option_map T.seed_hash_of self.now.value) out.old result out.new }
    {
        match self.get() {
            Some(sketch) => {
                *out = sketch.seed_hash() as u32;
                OK
            }
            None => INVALID_ARGUMENT,
        }
    }

    /// Writes 1 if the sketch is ordered, and else 0.
    pub fn is_ordered(&self, out: &mut u32) -> u32
        ensures { WritesValue (option_map (λ s. order_number (T.is_in_order s)) self.now.value) out.old result out.new }
    {
        match self.get() {
            Some(sketch) => {
                *out = if sketch.is_ordered() { 1 } else { 0 };
                OK
            }
            None => INVALID_ARGUMENT,
        }
    }
}

impl<T: HasSize> Reader<T> {
    /// Writes the bytes that the object's entries or slots take.
    pub fn estimated_size(&self, out: &mut u64) -> u32
        ensures { WritesSome self.now.value out.old result out.new }
    {
        match self.get() {
            Some(object) => {
                *out = object.estimated_size();
                OK
            }
            None => INVALID_ARGUMENT,
        }
    }
}
