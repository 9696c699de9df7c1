//! The images in files: a file is one image and nothing else, or each of its lines is one in hexadecimal, with blanks
//! allowed around it.
ghost use Rattle.std.specs.Prelude.{◌≡◌, ◌≢◌, ◌≤◌, ◌<◌, ◌^◌, ℕ, List, Option, true, false, Some, None, IfOk, IfSome};
ghost use Rattle.std.specs.Prelude.{IfNone, OnOk, max, nat_lt, if◌then◌else◌, Bool};
ghost use Rattle.sketch_base.specs.Seed.{seed_hash};
ghost use Rattle.keys_sketches.specs.Sources.{GivesNext};
ghost use Rattle.distinct_inputs.specs.Images.{remaining_images, remaining_parts, only_image, image_flaw, is_followed};
ghost use Rattle.distinct_inputs.specs.AnySeed.{reader_hash};
ghost use Rattle.distinct_inputs.specs.Images.{length_of, count_of, line_image};
ghost use Rattle.distinct_inputs.specs.Images.{CountsLine, HasNoSketch, IsOnlyImage, GivesOrCloses, IsSameReader};
ghost use Rattle.distinct_messages.specs.Failures.{display_name, UnreadableIf};
ghost use Rattle.distinct_inputs.specs.Failures.{IsOfImages, IsOfReading, NotesNext, NotesNextFile, ReportsUnreadable};
ghost use Rattle.distinct_inputs.specs.Failures.{ReportsNoSketch, ReportsPastUnion};

use crate::any_seed::reader_hash;
use crate::inputs::Inputs;
use distinct_messages::{Coarser, Failure, OtherSeed};
use keys_sketches::{
    Flaw, ImageFlaw, Sources, entry_count, flaw_of, image_length, read_hex, read_line, sums_count,
    sums_flaw_of, sums_length,
};
use sketch_base::{ErrorKind as KindOfError, compute_seed_hash};
use std::alloc::Global;
use std::io;
use std::io::{BufReader, Cursor, ErrorKind, Read};
use theta_sketches::CompactThetaSketch;

/// The hash of a seed; 0 if no image can be read under the seed.
fn hash_of_seed(seed: u64) -> u16
    ensures { result ≡ seed_hash seed }
{
    compute_seed_hash(seed, KindOfError::InvalidArgument).unwrap_or(0)
}

/// Why the bytes are not one image that is read under this seed hash: of a sketch of sums, or of a theta sketch.
fn flaw_in(sums: bool, bytes: &[u8], hash: u16) -> Flaw
    ensures { result ≡ image_flaw sums hash bytes.now }
{
    if sums {
        sums_flaw_of(bytes, hash)
    } else {
        flaw_of(bytes, hash)
    }
}

/// The length of the image that bytes begin, by its preamble.
fn length_of(sums: bool, bytes: &[u8]) -> Option<u64>
    ensures { result ≡ length_of sums bytes.now }
{
    if sums {
        sums_length(bytes)
    } else {
        image_length(bytes)
    }
}

/// Whether something follows the image that bytes begin.
fn is_followed(sums: bool, bytes: &[u8]) -> bool
    ensures { result ≡ is_followed sums bytes.now }
{
    match length_of(sums, bytes) {
        Some(size) => size < bytes.len() as u64,
        None => false,
    }
}

/// The bytes of an image with nothing behind it. If something is behind it, there are no bytes, which can't be read
/// as a sketch, since a second image there would be ignored.
fn only_image(alloc: Global, sums: bool, bytes: Vec<u8>) -> Vec<u8>
    ensures bytes { result.items ≡ only_image sums bytes.items }
    ensures only_image { IsOnlyImage sums result.items }
{
    if is_followed(sums, bytes.as_slice()) {
        return Vec::new(alloc);
    }
    bytes
}

/// The images of files, one after another.
#[derive(Drop)]
pub struct Images<'a, S: Sources> {
    alloc: Global,
    inputs: Inputs<'a, S>,
    /// Whether they are images of sums, and not of theta sketches.
    sums: bool,
    hex: bool,
    open: Option<BufReader<S::Source>>,
    line: u64,
    seed: u64,
    /// Whether images of other seeds are read, too.
    any_seed: bool,
    /// What is wrong with the last image, if something is; `None` if a line isn't hexadecimal.
    flaw: Option<Flaw>,
    /// The most hashes that an image retains, and the name of its file.
    most: u64,
    most_name: &'a str,
}

impl<'a, S: Sources> Images<'a, S> {
    /// The images of theta sketches in these files, to be read under this seed.
    pub fn new(alloc: Global, inputs: Inputs<'a, S>, hex: bool, seed: u64) -> Images<'a, S>
        ensures inputs { result.inputs ≡ inputs.entry }
        ensures sums { result.sums ≡ false }
        ensures hex { result.hex ≡ hex }
        ensures seed { result.seed ≡ seed }
        ensures closed { result.«open» ≡ None }
    {
        Images::of(alloc, inputs, false, hex, seed)
    }

    /// The images in these files, to be read under this seed: of sums, or of theta sketches.
    pub fn of(
        alloc: Global,
        inputs: Inputs<'a, S>,
        sums: bool,
        hex: bool,
        seed: u64,
    ) -> Images<'a, S>
        ensures inputs { result.inputs ≡ inputs.entry }
        ensures sums { result.sums ≡ sums }
        ensures hex { result.hex ≡ hex }
        ensures seed { result.seed ≡ seed }
        ensures closed { result.«open» ≡ None }
    {
        Images {
            alloc,
            inputs,
            sums,
            hex,
            open: None,
            line: 0,
            seed,
            any_seed: false,
            flaw: None,
            most: 0,
            most_name: "",
        }
    }

    /// The images of theta sketches in these files, to be read whatever their seeds are. One that has no seed hash is
    /// read under this seed.
    pub fn of_any_seed(alloc: Global, inputs: Inputs<'a, S>, hex: bool, seed: u64) -> Images<'a, S>
        ensures inputs { result.inputs ≡ inputs.entry }
        ensures sums { result.sums ≡ false }
        ensures hex { result.hex ≡ hex }
        ensures seed { result.seed ≡ seed }
        ensures closed { result.«open» ≡ None }
    {
        Images {
            alloc,
            inputs,
            sums: false,
            hex,
            open: None,
            line: 0,
            seed,
            any_seed: true,
            flaw: None,
            most: 0,
            most_name: "",
        }
    }

    /// The name, in messages, of the file that was opened last.
    pub fn name(&self) -> &'a str
        ensures { result.now ≡ display_name self.now.inputs.current.now }
    {
        self.inputs.name()
    }

    /// The number, from 1, of the line that was read last in the file that was opened last; 0 if none was, as of a file
    /// that is one image.
    pub fn line(&self) -> u64
        ensures { result ≡ self.now.line }
    {
        self.line
    }

    /// The failure if the file can't be read.
    pub fn read_failure(&self, error: io::Error) -> Failure
        ensures read { ReportsUnreadable (display_name self.now.inputs.current.now) error result }
        ensures of_reading { IsOfReading result }
        ensures fallible { UnreadableIf S.may_fail result }
    {
        self.inputs.read_failure(self.alloc, error)
    }

    /// The failure if the file, or its line, isn't an image, or if it has no line: of images of sums or of theta
    /// sketches, each a file or with `hex` a line. What a union leaves of the reader is unspecified, so the caller
    /// says again which.
    pub fn sketch_failure(&self, sums: bool, hex: bool) -> Failure
        ensures reports { ReportsNoSketch sums hex self.now result }
        ensures of_images { (seed : ℕ) (images : Option (List (List ℕ)))
            → HasNoSketch sums seed images
            → IsOfImages sums hex seed images result }
        ensures fallible { (may_fail : Bool) → UnreadableIf may_fail result }
    {
        let Ok(name) = String::from_str(self.alloc, self.name()) else {
            return Failure::Memory;
        };
        if hex && self.line == 0 {
            return Failure::NoLine(name);
        }
        if hex && self.flaw.is_none() {
            return Failure::NoHex(name, self.line);
        }
        let flaw = self.flaw.unwrap_or(Flaw::Image(ImageFlaw::Damaged));
        if sums {
            Failure::NoSums(name, self.line, flaw)
        } else {
            Failure::NoSketch(name, self.line, flaw)
        }
    }

    /// The failure if the sum of a key is 2^64 or more with the image that was read last.
    pub fn overflow_failure(&self) -> Failure
        ensures reports { ReportsPastUnion self.now result }
        ensures fallible { (may_fail : Bool) → UnreadableIf may_fail result }
    {
        match String::from_str(self.alloc, self.name()) {
            Ok(name) => Failure::PastUnion(name, self.line),
            Err(_) => Failure::Memory,
        }
    }

    /// The remark that the image that was read last, which is that of this sketch, was made with another seed, if it has
    /// another seed hash.
    pub fn other_seed(&self, sketch: &CompactThetaSketch) -> Option<OtherSeed<'a>>
        ensures some { IfSome result (λ r. (sketch.now.seed_hash ≢ seed_hash self.now.seed)
            × (r.line ≡ self.now.line) × (r.name.now ≡ display_name self.now.inputs.current.now)) }
        ensures none { IfNone result (sketch.now.seed_hash ≡ seed_hash self.now.seed) }
    {
        if sketch.seed_hash() == hash_of_seed(self.seed) {
            return None;
        }
        Some(OtherSeed {
            name: self.name(),
            line: self.line,
        })
    }

    /// The remark on the image that retains the most hashes, if these are more than 2^`lg_k`.
    pub fn coarser(&self, lg_k: u8) -> Option<Coarser<'a>>
        ensures some { IfSome result (λ c.
            (2 ^ lg_k < self.now.most) × (c.retained ≡ self.now.most) × (c.lg_k ≡ lg_k) × (c.name.now ≡ self.now.most_name.now)) }
        ensures none { IfNone result (self.now.most ≤ 2 ^ lg_k) }
    {
        let most = self.most;
        if lg_k < 64 && 1u64 << lg_k < most {
            Some(Coarser {
                name: self.most_name,
                retained: most,
                lg_k,
            })
        } else {
            None
        }
    }

    /// Notes what the preamble of an image says.
    fn note(&mut self, image: &[u8])
        ensures flaw { self.new.flaw ≡ Some (image_flaw self.old.sums
            (reader_hash self.old.any_seed (seed_hash self.old.seed) image.now) image.now) }
        ensures same { IsSameReader self.old self.new }
        ensures left { remaining_parts S.Source.remaining S.texts self.new
            ≡ remaining_parts S.Source.remaining S.texts self.old }
        ensures most { self.new.most ≡ max self.old.most (count_of self.old.sums image.now) }
        ensures most_name { self.new.most_name.now ≡ (
            if nat_lt self.old.most (count_of self.old.sums image.now)
            then display_name self.old.inputs.current.now
            else self.old.most_name.now) }
    {
        let hash = reader_hash(self.any_seed, hash_of_seed(self.seed), image);
        self.flaw = Some(flaw_in(self.sums, image, hash));
        let count = if self.sums {
            sums_count(image)
        } else {
            entry_count(image)
        };
        if self.most < count {
            self.most = count;
            self.most_name = self.name();
        }
    }

    /// The next image, or `None` at the end. Nothing follows it in its file or line. If something follows an image,
    /// if a line isn't hexadecimal, or if a file that should have lines has none, it returns no bytes, which can't be
    /// read as a sketch. An error means that the file can't be read.
    pub fn next_image(&mut self) -> io::Result<Option<Vec<u8>>>
        ensures next { IfOk result (GivesNext (λ v. Some v.items)
            (remaining_images S.Source.remaining S.texts self.old)
            (remaining_images S.Source.remaining S.texts self.new)) }
        ensures only_image { IfOk result (λ image. IfSome image (λ v. IsOnlyImage self.old.sums v.items)) }
        ensures noted { IfOk result (λ image. IfSome image (λ v. count_of self.old.sums v.items ≤ self.new.most)) }
        ensures named { NotesNextFile self.old self.new }
    {
        match self.next_part()? {
            Some(part) => Ok(Some(only_image(self.alloc, self.sums, part))),
            None => Ok(None),
        }
    }

    /// Leaves the open file, which can't be read further: the next image is in the next file.
    pub fn leave(&mut self)
        ensures inputs { self.new.inputs ≡ self.old.inputs }
        ensures hex { self.new.hex ≡ self.old.hex }
    {
        self.open = None;
    }

    /// What the next file, or the next line, has in place of an image.
    fn next_part(&mut self) -> io::Result<Option<Vec<u8>>>
        ensures next { IfOk result (GivesNext (λ v. Some v.items)
            (remaining_parts S.Source.remaining S.texts self.old)
            (remaining_parts S.Source.remaining S.texts self.new)) }
        ensures sums { OnOk result (self.new.sums ≡ self.old.sums) }
        ensures noted { IfOk result (λ image. IfSome image (λ v. count_of self.old.sums v.items ≤ self.new.most)) }
        ensures named { NotesNextFile self.old self.new }
    {
        if self.hex {
            self.next_line()
        } else {
            self.next_whole()
        }
    }

    /// All bytes of the next file.
    fn next_whole(&mut self) -> io::Result<Option<Vec<u8>>>
        ensures next { IfOk result
            (GivesNext (λ v. Some v.items) (S.texts self.old.inputs.sources) (S.texts self.new.inputs.sources)) }
        ensures hex { self.new.hex ≡ self.old.hex }
        ensures sums { self.new.sums ≡ self.old.sums }
        ensures named { NotesNext self.old.inputs.current.now self.old.inputs.left.now self.new.inputs.current.now
            self.new.inputs.left.now }
        ensures noted { IfOk result (λ image. IfSome image (λ v. count_of self.old.sums v.items ≤ self.new.most)) }
    {
        let Some(mut input) = self.inputs.next_source()? else {
            return Ok(None);
        };
        let mut image = Vec::new(self.alloc);
        input.read_to_end(&mut image)?;
        self.note(image.as_slice());
        Ok(Some(image))
    }

    /// What the next line of the files spells. For a file without a line it returns no bytes: otherwise nothing would
    /// show that its image is missing.
    fn next_line(&mut self) -> io::Result<Option<Vec<u8>>>
        requires lines { self.old.hex ≡ true }
        ensures next { IfOk result (GivesNext (λ v. Some v.items)
            (remaining_parts S.Source.remaining S.texts self.old)
            (remaining_parts S.Source.remaining S.texts self.new)) }
        ensures sums { OnOk result (self.new.sums ≡ self.old.sums) }
        ensures noted { IfOk result (λ image. IfSome image (λ v. count_of self.old.sums v.items ≤ self.new.most)) }
    {
        for _ in 0..u64::MAX {
            if let Some(image) = self.line_of_open()? {
                return Ok(Some(image));
            }
            let Some(input) = self.inputs.next_source()? else {
                return Ok(None);
            };
            self.open = Some(BufReader::new(self.alloc, input)?);
            self.line = 0;
        }
        Err(io::Error::from(ErrorKind::Other))
    }

    /// What the next line of the open file spells. At its end the file is closed.
    fn line_of_open(&mut self) -> io::Result<Option<Vec<u8>>>
        requires lines { self.old.hex ≡ true }
        ensures hex { self.new.hex ≡ self.old.hex }
        ensures sums { self.new.sums ≡ self.old.sums }
        ensures named { self.new.inputs ≡ self.old.inputs }
        ensures counted { IfOk result (λ image.
            IfSome image (λ _. CountsLine self.new.«open» self.old.line self.new.line)) }
        ensures next { IfOk result (GivesOrCloses (λ v. v.items)
            (remaining_parts S.Source.remaining S.texts self.old)
            (remaining_parts S.Source.remaining S.texts self.new)
            self.new.«open») }
        ensures noted { IfOk result (λ image. IfSome image (λ v. count_of self.old.sums v.items ≤ self.new.most)) }
    {
        let Some(reader) = &mut self.open else {
            return Ok(None);
        };
        let mut line = Vec::new(self.alloc);
        let count = read_line(reader, &mut line)?;
        if count == 0 {
            self.open = None;
            if self.line == 0 {
                return Ok(Some(Vec::new(self.alloc)));
            }
            return Ok(None);
        }
        self.line = self.line.saturating_add(1);
        let image = self.image_in_line(line.as_slice())?;
        Ok(Some(image))
    }

    /// The bytes that a line spells, whose preamble is noted; no bytes if it spells none. The only error is refused
    /// memory.
    fn image_in_line(&mut self, line: &[u8]) -> io::Result<Vec<u8>>
        ensures spelled { IfOk result (λ v. v.items ≡ line_image line.now) }
        ensures same { IsSameReader self.old self.new }
        ensures left { remaining_parts S.Source.remaining S.texts self.new
            ≡ remaining_parts S.Source.remaining S.texts self.old }
        ensures most { OnOk result (self.new.most ≡ max self.old.most (count_of self.old.sums (line_image line.now))) }
    {
        self.flaw = None;
        match read_hex(self.alloc, line.trim_ascii())? {
            Some(image) => {
                self.note(image.as_slice());
                Ok(image)
            }
            None => Ok(Vec::new(self.alloc)),
        }
    }
}

impl<'a, S: Sources> Sources for Images<'a, S> {
    type Source = Cursor<Vec<u8>>;

    ghost use mathlib.Core.Bool.{false≢true};

    ghost texts = { λ s. remaining_images S.Source.remaining S.texts s };

    ghost may_fail = { S.may_fail };

    ghost readers_fail = { λ fails. absurd (false≢true fails) };

    fn may_fail() -> bool
        ensures { result ≡ S.may_fail }
    {
        S::may_fail()
    }

    fn next_source(&mut self) -> io::Result<Option<Cursor<Vec<u8>>>> {
        match self.next_image()? {
            Some(image) => Ok(Some(Cursor::new(image))),
            None => Ok(None),
        }
    }
}
