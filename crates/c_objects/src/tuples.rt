//! Images of tuple sketches whose summaries are the caller's, of any length: their preambles, and compact sketches of
//! their keys.
ghost use Rattle.std.specs.Prelude.{◌≡◌, ◌<◌, ◌^◌, ◌++◌, ℕ, List, length, IfOk, IfErr, OnOk, MatchOption};
ghost use Rattle.std.specs.List.{flat_map};
ghost use Rattle.core_compact.specs.CompactState.{Compact, IsCompact};
ghost use Rattle.core_laws.specs.Entries.{hash_key};
ghost use Rattle.core_images.specs.Entry.{SpellsHash, SpellsEach};
ghost use Rattle.core_images.specs.Head.{tuple_layout};
ghost use Rattle.core_images.specs.Summary.{tuple_text};
ghost use Rattle.core_slots.specs.Entry.{tuple_key};
ghost use Rattle.core_slots.specs.declared.entry.TupleEntry.{TupleEntry};
ghost use Rattle.tuple_sketches.specs.Image.{Reads, written};
ghost use Rattle.c_objects.specs.Buffer.{IsPut};
ghost use Rattle.c_objects.specs.Flaws.{FindsIf, IsFinding};
ghost use Rattle.c_objects.specs.Status.{IsUnreadStatus};
ghost use Rattle.c_objects.specs.Tuples.{tuple_preamble, tuple_flaw_of, least_length, IsTupleFinding, WritesTupleHead};
ghost use Rattle.c_objects.specs.Tuples.{state_in, order_in, start_in, IsFormOf, IsFormRefusal};
ghost use Rattle.c_objects.specs.Tuples.{IsLayoutOf, IsLayoutOfKeys, IsNoForm, keys_by, keys_of};

use crate::bounds::is_state;
use crate::buffer::put;
use crate::compact::CompactSketch;
use crate::flaws::{Finding, finding_of};
use crate::state::State;
use crate::status::{INVALID_DATA, OK, OUT_OF_MEMORY, status_of};
use core_compact::CompactSketchState;
use core_images::{
    ImageLayout, Preamble, TupleSummaryValue, flaw_of_image, image_preamble, layout_of, length_of,
    read_after_preamble, reader_seed_hash, tuple_head,
};
use core_slots::ThetaEntry;
use keys_sketches::{Flaw, flaw_of};
use sketch_base::{Error, Family, SketchBytes};
use std::alloc::{Allocator, Global};
use theta_sketches::{CompactThetaSketch, MAX_THETA};
use tuple_sketches::SKETCH_TYPE;

/// Copies the preamble of the image of a tuple sketch with these keys to the front of a buffer, and writes how many
/// bytes it has. The status is `OK`, or `TOO_SMALL` if it doesn't fit.
pub fn put_tuple_preamble(keys: &CompactSketch, out: &mut [u8], length: &mut u64) -> u32
    ensures { IsPut (tuple_preamble keys.now.sketch) out.old result out.new length.new }
{
    let (bytes, count) = image_preamble(keys.sketch.state(), Family::TUPLE, SKETCH_TYPE);
    put(&bytes[..count], out, length)
}

/// Why bytes are not the image of a tuple sketch, by their preamble.
fn tuple_finding(image: &[u8], seed_hash: u16) -> Finding
    ensures { IsFinding (tuple_flaw_of seed_hash image.now) (least_length image.now) result }
{
    let head = tuple_head(8, image);
    let length = length_of(head);
    let flaw = flaw_of_image(image, seed_hash, head);
    // Whether bytes are a text of digits doesn't depend on the family.
    match flaw_of(image, seed_hash) {
        Flaw::Hexadecimal => finding_of(Flaw::Hexadecimal, length),
        Flaw::Image(_) => finding_of(Flaw::Image(flaw), length),
    }
}

/// The state that a layout says.
fn state_in(layout: ImageLayout) -> State
    ensures { result ≡ state_in layout }
{
    match layout {
        ImageLayout::Empty => State::of(0, MAX_THETA, true),
        ImageLayout::Filled(p) => State::of(p.count as usize, p.theta, false),
    }
}

/// 1 if a layout says that its hashes ascend, else 0.
fn order_in(layout: ImageLayout) -> u32
    ensures { result ≡ order_in layout }
{
    match layout {
        ImageLayout::Empty => 1,
        ImageLayout::Filled(p) => if p.ordered { 1 } else { 0 },
    }
}

/// Where the entries of a layout begin.
fn start_in(layout: ImageLayout) -> u64
    ensures { result ≡ start_in layout }
{
    match layout {
        ImageLayout::Empty => 8,
        ImageLayout::Filled(p) => p.start as u64,
    }
}

/// Writes what the preamble of the image of a tuple sketch says: the state of the sketch, 1 if its hashes ascend and
/// else 0, and where its first entry begins. The status is `OK`, or `INVALID_DATA` if the preamble has a flaw, and
/// then that is written alone.
pub fn put_tuple_head(
    image: &[u8],
    seed: u64,
    state: &mut State,
    order: &mut u32,
    start: &mut u64,
    found: &mut Finding,
) -> u32
    ensures head { WritesTupleHead image.now seed state.old order.old start.old result state.new order.new start.new }
    ensures found { FindsIf (IsTupleFinding image.now seed) found.old result found.new }
{
    let seed_hash = reader_seed_hash(seed);
    match layout_of(seed_hash, image.len(), tuple_head(8, image)) {
        Ok(layout) => {
            *state = state_in(layout);
            *order = order_in(layout);
            *start = start_in(layout);
            OK
        }
        Err(_) => {
            *found = tuple_finding(image, seed_hash);
            INVALID_DATA
        }
    }
}

/// The layout of `count` hashes without a preamble that says this state and order, if some sketch has these.
fn layout_of_form(state: &State, order: u32, count: usize) -> Option<ImageLayout>
    ensures { MatchOption result (IsNoForm state.now order count) (IsLayoutOf state.now order count) }
{
    if state.retained != count as u64 || !is_state(state.retained, state.theta) || order > 1 {
        return None;
    }
    if state.empty == 0 {
        return Some(ImageLayout::Filled(Preamble {
            start: 0,
            count: count as u32,
            theta: state.theta,
            ordered: order == 1,
        }));
    }
    if state.empty == 1 && count == 0 && state.theta == MAX_THETA && order == 1 {
        Some(ImageLayout::Empty)
    } else {
        None
    }
}

/// The bytes of hashes as images spell them.
fn spelled(alloc: Global, hashes: &[u64]) -> Result<Vec<u8>, Error>
    requires limited { length hashes.now < 2 ^ 32 }
    ensures spelled { IfOk result (λ v. SpellsEach SpellsHash v.items hashes.now) }
{
    let mut bytes = SketchBytes::with_capacity(alloc, 8 * hashes.len())?;
    for hash in hashes {
        bytes.write_u64_le(*hash)?;
    }
    Ok(bytes.into_bytes())
}

/// The sketch of a layout and of its hashes. Refused with `INVALID_DATA` if they aren't those of a sketch, and with
/// `OUT_OF_MEMORY`.
fn keys_by(
    alloc: Global,
    layout: ImageLayout,
    hashes: &[u64],
    seed_hash: u16,
) -> Result<CompactSketchState<ThetaEntry>, u32>
    requires layout { IsLayoutOf (state_in layout) (order_in layout) (length hashes.now) layout }
    requires limited { length hashes.now < 2 ^ 32 }
    ensures made { IfOk result (λ s. s ≡ keys_by layout seed_hash hashes.now) }
    ensures refused { IfErr result (IsUnreadStatus (IsCompact hash_key (keys_by layout seed_hash hashes.now))) }
{
    let bytes = match spelled(alloc, hashes) {
        Ok(bytes) => bytes,
        Err(_) => return Err(OUT_OF_MEMORY),
    };
    match read_after_preamble(alloc, bytes.as_slice(), Ok(layout), seed_hash) {
        Ok(state) => Ok(state),
        Err(reason) => Err(status_of(Error::from(reason).kind())),
    }
}

/// The compact sketch of a seed that has this state, this order (1 if it is ordered, else 0) and these hashes, in their
/// order. Refused with `INVALID_DATA` if no sketch has them, and with `OUT_OF_MEMORY`.
pub fn of_hashes(
    alloc: Global,
    state: &State,
    order: u32,
    hashes: &[u64],
    seed: u64,
) -> Result<CompactSketch, u32>
    ensures made { IfOk result (IsFormOf state.now order hashes.now seed) }
    ensures refused { IfErr result (IsFormRefusal state.now order hashes.now seed) }
    ensures room { OnOk result (IsFormRefusal state.now order hashes.now seed 3) }
{
    let seed_hash = reader_seed_hash(seed);
    if seed_hash == 0 {
        return Err(INVALID_DATA);
    }
    let layout = match layout_of_form(state, order, hashes.len()) {
        Some(layout) => layout,
        None => return Err(INVALID_DATA),
    };
    match keys_by(alloc, layout, hashes, seed_hash) {
        Ok(keys) => Ok(CompactSketch {
            sketch: CompactThetaSketch::of_state(keys),
        }),
        Err(status) => Err(status),
    }
}

/// The image of a tuple sketch is the preamble of its keys, and behind it each hash with its summary, whatever the bytes
/// of summaries are.
pub fn preamble_begins<S>()
    ensures { (text : S → List ℕ) (t : Compact (TupleEntry S))
        → IsCompact tuple_key t
        → written text t ≡ tuple_preamble (keys_of t) ++ flat_map (tuple_text text) t.entries }
{}

/// Bytes that are read as a tuple sketch, however they spell its summaries, have a head, and this with the sketch's
/// hashes makes the sketch of its keys.
pub fn head_of_keys<S: TupleSummaryValue<A>, A: Allocator>()
    ensures { (bytes : List ℕ) (h : ℕ) (t : Compact (TupleEntry S))
        → Reads S.spells bytes h t
        → IsLayoutOfKeys (tuple_layout 8 h bytes) h t }
{}
