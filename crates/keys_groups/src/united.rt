//! Groups of images, each with the union of its images.
ghost use Rattle.std.specs.Prelude.{◌≡◌, ◌+◌, ◌-◌, ◌^◌, ◌++◌, ◌∷◌, ℕ, List, [], true, Some, None, IfOk, IfErr, OnOk};
ghost use Rattle.std.specs.Prelude.{max, min, nat_lt, if◌then◌else◌};
ghost use Rattle.keys_sketches.specs.Header.{entry_count};
ghost use Rattle.keys_sketches.specs.Hex.{bytes_of_hex};
ghost use Rattle.sketch_base.specs.Seed.{seed_hash};
ghost use Rattle.core_images.specs.Read.{IsRefused};
ghost use Rattle.core_laws.specs.Refusal.{Refuses};
ghost use Rattle.core_laws.specs.Settings.{settings_refusal};
ghost use Rattle.core_laws.specs.declared.TheConstants.{MAX_THETA};
ghost use Rattle.core_operators.specs.Union.{empty_union};
ghost use Rattle.theta_sketches.specs.Image.{IsReadable};
ghost use Rattle.keys_groups.specs.Tabs.{has_tab, before_tab, behind_tab};
ghost use Rattle.keys_groups.specs.United.{image_line, image_in, IsUniting, AreReady, UpdatesUnion, BeginsUnion};
ghost use Rattle.keys_groups.specs.United.{is_followed};
ghost use Rattle.keys_groups.specs.United.{IsNotOneImage, IsAddError, IsFlawless};

use crate::groups::Group;
use crate::sketched::SketchedGroups;
use crate::tabs::cut_last;
use keys_sketches::{Flaw, ImageUnion, entry_count, flaw_of, hex_line, image_length, read_hex};
use sketch_base::{Error, ErrorKind, compute_seed_hash};
use std::alloc::{AllocError, Global};
use std::collections::BTreeMap;
use theta_sketches::{ResizeFactor, ThetaUnion, ThetaUnionBuilder};

/// Why a line is not that of a group with its image.
#[derive(Clone, Copy, Debug, PartialEq, Eq)]
pub enum LineFlaw {
    /// It has no tab.
    NoTab,
    /// What follows its last tab is not hexadecimal digits, two per byte.
    NoHex,
    /// What the digits spell is not the image of one sketch of the seed, by this flaw.
    NoImage(Flaw),
}

/// Why a line was not added.
#[derive(Clone, Copy, Debug, PartialEq, Eq)]
pub(crate) enum AddError {
    Memory,
    Flawed(LineFlaw),
}

impl From<AllocError> for AddError {
    ghost use Rattle.keys_groups.specs.declared.united.AddError.TheVariants.{Memory};

    ghost from_gives = { λ _ reason. reason ≡ Memory };

    fn from(_e: AllocError) -> AddError {
        AddError::Memory
    }
}

/// Groups of images, each with the union of its images.
#[derive(Drop)]
pub struct UnitedGroups {
    pub(crate) map: BTreeMap<Vec<u8>, ThetaUnion>,
    /// The most hashes that an image retains.
    most: u64,
    /// How many sources were read.
    sources: u64,
    /// The number, from 1, of the first source with such an image; 0 if there is none.
    most_source: u64,
}

/// The line of a group: its name, a tab, its image in hexadecimal digits, and an LF. The only error is `AllocError`.
pub fn image_line(alloc: Global, name: &[u8], image: &[u8]) -> Result<Vec<u8>, AllocError>
    ensures { IfOk result (λ v. v.items ≡ image_line name.now image.now) }
{
    let digits = hex_line(alloc, image)?;
    let mut line = Vec::from_slice(alloc, name)?;
    line.push(b'\t')?;
    line.extend_from_slice(digits.as_slice())?;
    Ok(line)
}

/// An empty union for a new group. Its table begins small and doubles, since most groups may be small.
fn small_union(alloc: Global, seed: u64, lg_k: u8) -> Result<ThetaUnion, Error>
    ensures made { IfOk result (λ u. u ≡ empty_union lg_k MAX_THETA (seed_hash seed) u.policy) }
    ensures refused { Refuses result (settings_refusal lg_k MAX_THETA seed) true }
{
    ThetaUnionBuilder::default()
        .lg_k(lg_k)
        .resize_factor(ResizeFactor::X2)
        .seed(seed)
        .build(alloc)
}

/// Refuses settings that no union has: with `InvalidArgument` an `lg_k` that isn't from 4 to 26 or a seed whose seed
/// hash is 0, and with `OutOfMemory`.
pub(crate) fn check_union(alloc: Global, seed: u64, lg_k: u8) -> Result<(), Error>
    ensures refused { Refuses result (settings_refusal lg_k MAX_THETA seed) true }
{
    let _ = small_union(alloc, seed, lg_k)?;
    Ok(())
}

/// The hash of a seed; 0 if no image can be read under the seed.
fn hash_of_seed(seed: u64) -> u16
    ensures { result ≡ seed_hash seed }
{
    compute_seed_hash(seed, ErrorKind::InvalidArgument).unwrap_or(0)
}

/// Whether something follows an image, since a second image there would be ignored.
fn is_longer(image: &[u8]) -> bool
    ensures { result ≡ is_followed image.now }
{
    match image_length(image) {
        Some(size) => size < image.len() as u64,
        None => false,
    }
}

/// The name of the group of a line, and the bytes that its digits spell.
fn parts_of(alloc: Global, line: &[u8]) -> Result<(&[u8], Vec<u8>), AddError>
    ensures name { IfOk result (λ parts. parts.0.now ≡ before_tab line.now) }
    ensures tab { OnOk result (has_tab line.now ≡ true) }
    ensures digits { IfOk result (λ parts. bytes_of_hex (behind_tab line.now) ≡ Some parts.1.items) }
    ensures image { IfOk result (λ parts. parts.1.items ≡ image_in line.now) }
    ensures failed { (seed : ℕ) → IfErr result (IsAddError seed line.now) }
{
    let Some((name, digits)) = cut_last(line) else {
        return Err(AddError::Flawed(LineFlaw::NoTab));
    };
    match read_hex(alloc, digits)? {
        Some(image) => Ok((name, image)),
        None => Err(AddError::Flawed(LineFlaw::NoHex)),
    }
}

impl UnitedGroups {
    /// No groups.
    pub(crate) fn new(alloc: Global) -> UnitedGroups
        ensures uniting { (seed lg_k : ℕ) → IsUniting seed lg_k [] result.map }
        ensures ready { (seed : ℕ) → AreReady seed result.map }
        ensures most { result.most ≡ 0 }
    {
        UnitedGroups {
            map: BTreeMap::new(alloc),
            most: 0,
            sources: 0,
            most_source: 0,
        }
    }

    /// Notes that a source was read, before which the most hashes of an image were these.
    pub(crate) fn end_source(&mut self, before: u64)
        ensures map { self.new.map ≡ self.old.map }
        ensures most { self.new.most ≡ self.old.most }
        ensures sources { self.new.sources ≡ min (self.old.sources + 1) (2 ^ 64 - 1) }
        ensures most_source { self.new.most_source
            ≡ (if nat_lt before self.old.most then min (self.old.sources + 1) (2 ^ 64 - 1) else self.old.most_source) }
    {
        self.sources = self.sources.saturating_add(1);
        if before < self.most {
            self.most_source = self.sources;
        }
    }

    /// Unites an image into the group of this name, if there is one. Returns whether there is.
    fn update(&mut self, alloc: Global, seed: u64, name: &[u8], image: &[u8]) -> Result<bool, Error>
        requires ready { AreReady seed self.old.map }
        ensures updated { IfOk result (UpdatesUnion seed name.now image.now self.old.map self.new.map) }
        ensures most { self.new.most ≡ self.old.most }
        ensures refused { IfErr result (λ e. IsRefused e (IsReadable image.now (seed_hash seed))) }
    {
        match self.map.get_mut(name) {
            Some(union) => {
                union.add_image(alloc, seed, image)?;
                Ok(true)
            }
            None => Ok(false),
        }
    }

    /// Makes a group of this name, which has this image alone. An older group of the name is dropped.
    fn begin(
        &mut self,
        alloc: Global,
        seed: u64,
        lg_k: u8,
        name: &[u8],
        image: &[u8],
    ) -> Result<(), Error>
        requires settled { settings_refusal lg_k MAX_THETA seed ≡ None }
        ensures begun { OnOk result (BeginsUnion seed lg_k name.now image.now self.old.map self.new.map) }
        ensures most { self.new.most ≡ self.old.most }
        ensures refused { IfErr result (λ e. IsRefused e (IsReadable image.now (seed_hash seed))) }
    {
        let mut union = small_union(alloc, seed, lg_k)?;
        union.add_image(alloc, seed, image)?;
        let key = Vec::from_slice(alloc, name)?;
        self.map.insert(key, union)?;
        Ok(())
    }

    /// Unites an image into the group of this name, which is new if there was none.
    fn add_image(
        &mut self,
        alloc: Global,
        seed: u64,
        lg_k: u8,
        name: &[u8],
        image: &[u8],
    ) -> Result<(), Error>
        requires settled { settings_refusal lg_k MAX_THETA seed ≡ None }
        requires ready { AreReady seed self.old.map }
        ensures uniting { (lines : List (List ℕ)) (line : List ℕ)
            → name.now ≡ before_tab line
            → image.now ≡ image_in line
            → IsUniting seed lg_k lines self.old.map
            → OnOk result (IsUniting seed lg_k (lines ++ line ∷ []) self.new.map) }
        ensures ready { OnOk result (AreReady seed self.new.map) }
        ensures most { self.new.most ≡ self.old.most }
        ensures refused { IfErr result (λ e. IsRefused e (IsReadable image.now (seed_hash seed))) }
    {
        let found = self.update(alloc, seed, name, image)?;
        if found {
            return Ok(());
        }
        self.begin(alloc, seed, lg_k, name, image)
    }

    /// Unites the image of a line into the group of the line. It fails if memory is refused, or the line isn't that
    /// of a group with one image of this seed.
    pub(crate) fn add_line(
        &mut self,
        alloc: Global,
        seed: u64,
        lg_k: u8,
        line: &[u8],
    ) -> Result<(), AddError>
        requires settled { settings_refusal lg_k MAX_THETA seed ≡ None }
        requires ready { AreReady seed self.old.map }
        ensures uniting { (lines : List (List ℕ))
            → IsUniting seed lg_k lines self.old.map
            → OnOk result (IsUniting seed lg_k (lines ++ line.now ∷ []) self.new.map) }
        ensures flawless { (lines : List (List ℕ))
            → IsUniting seed lg_k lines self.old.map
            → OnOk result (IsFlawless seed line.now) }
        ensures ready { OnOk result (AreReady seed self.new.map) }
        ensures most { OnOk result (self.new.most ≡ max self.old.most (entry_count (image_in line.now))) }
        ensures failed { IfErr result (IsAddError seed line.now) }
    {
        let (name, image) = parts_of(alloc, line)?;
        if is_longer(image.as_slice()) {
            return Err(not_one_image(seed, image.as_slice()));
        }
        self.most = self.most.max(entry_count(image.as_slice()));
        match self.add_image(alloc, seed, lg_k, name, image.as_slice()) {
            Ok(()) => Ok(()),
            Err(error) => Err(add_error(seed, image.as_slice(), error)),
        }
    }

    /// The most hashes that an image retains; 0 if there is none.
    pub fn most_retained(&self) -> u64
        ensures { result ≡ self.now.most }
    {
        self.most
    }

    /// The number, from 1, of the first source that has an image with the most hashes; 0 if there is no image with any.
    pub fn most_source(&self) -> u64
        ensures { result ≡ self.now.most_source }
    {
        self.most_source
    }
}

impl SketchedGroups for UnitedGroups {
    ghost use Rattle.keys_groups.specs.United.{AreSound, ListsUnions};

    ghost lists = { ListsUnions };

    ghost is_sound = { AreSound };

    fn take_group(&mut self) -> Result<Option<Group>, Error> {
        let Some((name, union)) = self.map.pop_first() else {
            return Ok(None);
        };
        let sketch = union.to_sketch(true)?;
        Ok(Some(Group { name, sketch }))
    }
}

/// The failure for bytes that are not the image of one sketch.
fn not_one_image(seed: u64, image: &[u8]) -> AddError
    ensures { (line : List ℕ) → image.now ≡ image_in line → IsNotOneImage seed image.now → IsAddError seed line result }
{
    AddError::Flawed(LineFlaw::NoImage(flaw_of(image, hash_of_seed(seed))))
}

/// The failure for an image that was not added, by its error.
fn add_error(seed: u64, image: &[u8], error: Error) -> AddError
    requires { IsRefused error (IsReadable image.now (seed_hash seed)) }
    ensures { (line : List ℕ) → image.now ≡ image_in line → IsAddError seed line result }
{
    if error.kind() == ErrorKind::InvalidData {
        not_one_image(seed, image)
    } else {
        AddError::Memory
    }
}
