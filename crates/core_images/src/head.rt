//! The head of an image: what its preamble says, before the seed hash, theta and the entries are checked.
ghost use Rattle.std.specs.Prelude.{◌≡◌, ◌≤◌, ◌*◌, ◌^◌, ◌<◌, true, length};
ghost use Rattle.core_images.specs.Head.{has_longs, preamble_of, vacant, filled, flagged_head, unflagged_head};
ghost use Rattle.core_images.specs.Head.{version_2_head, theta_head, tuple_head, is_tuple_version, is_sketch_type};
ghost use Rattle.core_images.specs.Head.{is_of_seed, has_theta, layout_of, is_big_endian, named, flaw_of_layout};
ghost use Rattle.core_images.specs.Head.{flaw_of_image, is_followed, length_of, count_of};
ghost use Rattle.core_images.specs.Preamble.{is_empty, is_vacant};
ghost use Rattle.sketch_base.specs.Seed.{seed_hash};

use crate::flaw::{Flaw, named};
use crate::preamble::{ImageLayout, Preamble, announced, count_at, seed_hash_at, theta_at};
use core_laws::MAX_THETA;
use sketch_base::{ErrorKind, compute_seed_hash};

/// What the preamble of an image says.
#[derive(Debug, Clone, Copy)]
pub struct Head {
    /// What follows the preamble.
    pub layout: ImageLayout,
    /// The seed hash that a reader must have; `None` if every reader reads the image.
    pub seed_hash: Option<u16>,
    /// How many bytes the image has, at least 8.
    pub length: u64,
}

/// Whether there are 1 to 3 preamble longs.
fn has_longs(bytes: &[u8]) -> bool
    requires { 8 ≤ length bytes.now }
    ensures { result ≡ has_longs bytes.now }
{
    1 <= bytes[0] && bytes[0] <= 3
}

/// Whether the image is flagged as that of the empty sketch.
fn is_empty(bytes: &[u8]) -> bool
    requires { 8 ≤ length bytes.now }
    ensures { result ≡ is_empty bytes.now }
{
    bytes[5] & 0x04 != 0
}

/// What the first `longs` preamble longs say, from 1 to 3: a single one means one entry, and fewer than three the
/// greatest theta.
fn preamble_of(bytes: &[u8], longs: u8, ordered: bool) -> Preamble
    requires low { 1 ≤ longs }
    requires high { longs ≤ 3 }
    requires whole { 8 * longs ≤ length bytes.now }
    ensures { result ≡ preamble_of bytes.now longs ordered }
{
    let count = if longs == 1 { 1 } else { count_at(bytes) };
    let theta = if longs == 3 {
        theta_at(bytes)
    } else {
        MAX_THETA
    };
    announced(longs, count, theta, ordered)
}

/// Whether a preamble means the empty sketch in an image without flags.
fn is_vacant(p: Preamble) -> bool
    ensures { result ≡ is_vacant p }
{
    p.count == 0 && p.theta == MAX_THETA
}

/// The head of an image of the empty sketch that has `length` bytes.
fn vacant(length: u64) -> Head
    ensures { result ≡ vacant length }
{
    Head {
        layout: ImageLayout::Empty,
        seed_hash: None,
        length,
    }
}

/// The head of an image with this preamble and `size` bytes for each entry.
fn filled(size: u16, p: Preamble, seed_hash: Option<u16>) -> Head
    requires { p.start ≤ 24 }
    ensures { result ≡ filled size p seed_hash }
{
    Head {
        layout: ImageLayout::Filled(p),
        seed_hash,
        length: p.start as u64 + size as u64 * p.count as u64,
    }
}

/// The head of an image with flags, with this many preamble longs, from 1 to 3, and `size` bytes for each entry.
#[tactic(auto, unfolding(crate::specs::Head::flagged_head))]
fn flagged_head(size: u16, bytes: &[u8], longs: u8) -> Result<Head, Flaw>
    requires whole { 8 ≤ length bytes.now }
    requires low { 1 ≤ longs }
    requires high { longs ≤ 3 }
    ensures { result ≡ flagged_head size bytes.now longs }
{
    if is_empty(bytes) {
        return Ok(vacant(8));
    }
    if bytes.len() < 8 * longs as usize {
        return Err(Flaw::Cut);
    }
    let p = preamble_of(bytes, longs, bytes[5] & 0x10 != 0);
    Ok(filled(size, p, Some(seed_hash_at(bytes))))
}

/// The head of a theta image without flags, whose preamble has this many longs, from 1 to 3.
#[tactic(auto, unfolding(crate::specs::Head::unflagged_head))]
fn unflagged_head(bytes: &[u8], longs: u8, seed_hash: Option<u16>) -> Result<Head, Flaw>
    requires low { 1 ≤ longs }
    requires high { longs ≤ 3 }
    ensures { result ≡ unflagged_head bytes.now longs seed_hash }
{
    if bytes.len() < 8 * longs as usize {
        return Err(Flaw::Cut);
    }
    let p = preamble_of(bytes, longs, true);
    if is_vacant(p) {
        Ok(vacant(8 * longs as u64))
    } else {
        Ok(filled(8, p, seed_hash))
    }
}

/// The head of a theta image of version 2, with 1 to 3 preamble longs.
fn version_2_head(bytes: &[u8]) -> Result<Head, Flaw>
    requires whole { 8 ≤ length bytes.now }
    requires longs { has_longs bytes.now ≡ true }
    ensures { result ≡ version_2_head bytes.now }
{
    if bytes[0] == 1 {
        return Ok(vacant(8));
    }
    unflagged_head(bytes, bytes[0], Some(seed_hash_at(bytes)))
}

/// The head of the image of a theta sketch that the bytes begin with, or the first flaw: `Short`, `Family`, `Version`,
/// `Malformed` or `Cut`. If it is returned, the bytes have the whole preamble; the entries may be cut short.
#[tactic(auto, unfolding(crate::specs::Head::theta_head))]
pub fn theta_head(bytes: &[u8]) -> Result<Head, Flaw>
    ensures { result ≡ theta_head bytes.now }
{
    if bytes.len() < 8 {
        return Err(Flaw::Short);
    }
    if bytes[2] != 3 {
        return Err(Flaw::Family(bytes[2]));
    }
    if !(1 <= bytes[1] && bytes[1] <= 3) {
        return Err(Flaw::Version(bytes[1]));
    }
    if !has_longs(bytes) {
        return Err(Flaw::Malformed);
    }
    match bytes[1] {
        3 => flagged_head(8, bytes, bytes[0]),
        2 => version_2_head(bytes),
        _ => unflagged_head(bytes, 3, None),
    }
}

/// Whether images of tuple sketches of this version are read.
fn is_tuple_version(version: u8) -> bool
    ensures { result ≡ is_tuple_version version }
{
    version == 3 || version == 1
}

/// Whether images of this sketch type are read.
fn is_sketch_type(kind: u8) -> bool
    ensures { result ≡ is_sketch_type kind }
{
    kind == 1 || kind == 5
}

/// The head of the image of a tuple sketch that the bytes begin with, or the first flaw, as `theta_head` returns it.
/// An entry has `size` bytes; if they vary, `size` is the least, and the image has at least `length` bytes.
#[tactic(auto, unfolding(crate::specs::Head::tuple_head))]
pub fn tuple_head(size: u16, bytes: &[u8]) -> Result<Head, Flaw>
    ensures { result ≡ tuple_head size bytes.now }
{
    if bytes.len() < 8 {
        return Err(Flaw::Short);
    }
    if bytes[2] != 9 {
        return Err(Flaw::Family(bytes[2]));
    }
    if !is_tuple_version(bytes[1]) {
        return Err(Flaw::Version(bytes[1]));
    }
    if !(has_longs(bytes) && is_sketch_type(bytes[3])) {
        return Err(Flaw::Malformed);
    }
    flagged_head(size, bytes, bytes[0])
}

/// The seed hash of a reader's seed; 0 if no image is read under the seed.
pub fn reader_seed_hash(seed: u64) -> u16
    ensures { result ≡ seed_hash seed }
{
    compute_seed_hash(seed, ErrorKind::InvalidArgument).unwrap_or(0)
}

/// Whether an image that asks for this seed hash may be read under the reader's.
fn is_of_seed(seed_hash: u16, asked: Option<u16>) -> bool
    ensures { result ≡ is_of_seed seed_hash asked }
{
    match asked {
        None => true,
        Some(other) => other == seed_hash,
    }
}

/// Whether the theta of a layout is from 1 to `MAX_THETA`.
fn has_theta(layout: ImageLayout) -> bool
    ensures { result ≡ has_theta layout }
{
    match layout {
        ImageLayout::Empty => true,
        ImageLayout::Filled(p) => 0 < p.theta && p.theta <= MAX_THETA,
    }
}

/// The layout of an image, by its head and the number of bytes that are present, for a reader of this seed hash; or
/// the first flaw: that of the head, then `Cut`, `Seed` (also if the reader's is 0), and `Theta`.
#[tactic(auto, unfolding(crate::specs::Head::layout_of))]
pub fn layout_of(
    seed_hash: u16,
    present: usize,
    head: Result<Head, Flaw>,
) -> Result<ImageLayout, Flaw>
    ensures { result ≡ layout_of seed_hash present head }
{
    match head {
        Err(flaw) => Err(flaw),
        Ok(it) => {
            if (present as u64) < it.length {
                Err(Flaw::Cut)
            } else if !(0 < seed_hash && is_of_seed(seed_hash, it.seed_hash)) {
                Err(Flaw::Seed)
            } else if !has_theta(it.layout) {
                Err(Flaw::Theta)
            } else {
                Ok(it.layout)
            }
        }
    }
}

/// Whether the bytes are flagged as an image of numbers with the highest byte first.
fn is_big_endian(bytes: &[u8]) -> bool
    ensures { result ≡ is_big_endian bytes.now }
{
    8 <= bytes.len() && ((bytes[1] == 3 || bytes[2] == 9) && bytes[5] & 0x01 != 0)
}

/// The flaw of bytes with this layout that are not read: that of the layout, or else their entries are damaged.
pub(crate) fn flaw_of_layout(bytes: &[u8], layout: Result<ImageLayout, Flaw>) -> Flaw
    ensures { result ≡ flaw_of_layout bytes.now layout }
{
    match layout {
        Err(flaw) => named(is_big_endian(bytes), flaw),
        Ok(_) => named(is_big_endian(bytes), Flaw::Damaged),
    }
}

/// The length in bytes of an image with this head, at least 8; `None` for a flaw.
pub fn length_of(head: Result<Head, Flaw>) -> Option<u64>
    ensures { result ≡ length_of head }
{
    match head {
        Err(_) => None,
        Ok(it) => Some(it.length),
    }
}

/// How many entries an image with this head has, below 2^32; 0 for a flaw.
pub fn count_of(head: Result<Head, Flaw>) -> u64
    ensures { result ≡ count_of head }
{
    match head {
        Err(_) => 0,
        Ok(it) => match it.layout {
            ImageLayout::Empty => 0,
            ImageLayout::Filled(p) => p.count as u64,
        },
    }
}

/// Why the bytes, whose image has this head, are not one image alone for a reader of this seed hash. It reads the
/// preamble alone, and so finds no flaw in the hashes: call it for bytes that are not read, or that continue after
/// their image. For other bytes it returns `BigEndian` or `Damaged`.
pub fn flaw_of_image(bytes: &[u8], seed_hash: u16, head: Result<Head, Flaw>) -> Flaw
    ensures { result ≡ flaw_of_image bytes.now seed_hash head }
{
    match layout_of(seed_hash, bytes.len(), head) {
        Err(flaw) => named(is_big_endian(bytes), flaw),
        Ok(_) => {
            let behind = if is_followed(bytes, head) {
                Flaw::Longer
            } else {
                Flaw::Damaged
            };
            named(is_big_endian(bytes), behind)
        }
    }
}

/// Whether bytes follow the image that the bytes begin with, whose head this is.
pub fn is_followed(bytes: &[u8], head: Result<Head, Flaw>) -> bool
    ensures { result ≡ is_followed bytes.now head }
{
    match head {
        Err(_) => false,
        Ok(it) => it.length < bytes.len() as u64,
    }
}
