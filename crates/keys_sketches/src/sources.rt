//! Texts, one after another, each with its own reader.
ghost use Rattle.std.specs.Prelude.{◌≡◌, ℕ, List, Option, None, Some, map, IfOk, IfErr, IsOk, OnOk, IfSome};
ghost use Rattle.keys_lines.specs.Lines.{lines_of, lines_of_all};
ghost use Rattle.keys_sketches.specs.Keys.{line_state, with_lines, value_of_lines, sketch_of_value};
ghost use Rattle.keys_sketches.specs.Sources.{GivesNext};
ghost use Rattle.keys_sketches.specs.Refusals.{RefusesRead, FailsIf};
ghost use Rattle.core_laws.specs.declared.TheConstants.{MAX_THETA};
ghost use Rattle.core_laws.specs.Settings.{settings_refusal};

use crate::sketching::{ReadError, Watch, add_lines, new_sketch, read_failure, trim_and_compact};
use keys_lines::Hashing;
use sketch_base::Error;
use std::alloc::{AllocError, Allocator, Global};
use std::io;
use std::io::{Cursor, Read};
use theta_sketches::{CompactThetaSketch, ThetaSketch};

/// The most bytes that one read of lines requests.
pub const BLOCK: usize = 1 << 17;

/// A reader of a text.
pub trait TextReader: Read {
    ghost use Rattle.std.specs.Prelude.{Bool};

    /// Whether a read may fail.
    ghost may_fail: { Bool };

    /// Whether a read may fail; false for a text in memory. Without such a failure only memory can be missing.
    fn may_fail() -> bool
        ensures { result ≡ may_fail };
}

impl TextReader for &[u8] {
    ghost use Rattle.std.specs.Prelude.{false};

    ghost may_fail = { false };

    fn may_fail() -> bool
        ensures { result ≡ false }
    {
        false
    }
}

impl<A: Allocator> TextReader for Cursor<Vec<u8, A>> {
    ghost use Rattle.std.specs.Prelude.{false};

    ghost may_fail = { false };

    fn may_fail() -> bool {
        false
    }
}

/// Texts, one after another, each with its own reader.
pub trait Sources {
    /// A reader of one text.
    type Source: TextReader + Drop;

    ghost use Rattle.std.specs.Prelude.{Bool, true, ◌≡◌};

    /// The texts that are left, if they are known.
    ghost texts: { Self → Option (List (List ℕ)) };

    /// Whether a source may fail, or fail to be opened.
    ghost may_fail: { Bool };

    /// Whether a source may fail, or fail to be opened; false for texts in memory. Without such a failure only memory
    /// can be missing.
    fn may_fail() -> bool
        ensures { result ≡ may_fail };

    /// The next text's reader, or `None` at the end. An error, of any kind, means that it couldn't be opened; the
    /// texts that are left are then unspecified.
    fn next_source(&mut self) -> io::Result<Option<Self::Source>>
        ensures { IfOk result (GivesNext Self.Source.remaining (texts self.old) (texts self.new)) };

    /// If a reader may fail, so may the sources.
    ghost readers_fail: { Self.Source.may_fail ≡ true → may_fail ≡ true };
}

/// Texts in memory, one after another.
#[derive(Drop)]
pub struct Texts<'a, A: Allocator = Global> {
    left: &'a [Vec<u8, A>],
}

impl<'a, A: Allocator> Texts<'a, A> {
    /// These texts, in their order.
    pub fn new(texts: &'a [Vec<u8, A>]) -> Texts<'a, A>
        ensures { result.left.now ≡ texts.now }
    {
        Texts { left: texts }
    }
}

impl<'a, A: Allocator> Sources for Texts<'a, A> {
    type Source = &'a [u8];

    ghost use Rattle.std.specs.Prelude.{false};

    ghost texts = { λ s. Some (map (λ text. text.items) s.left.now) };

    ghost may_fail = { false };

    ghost readers_fail = { λ fails. fails };

    fn may_fail() -> bool {
        false
    }

    /// Never fails.
    fn next_source(&mut self) -> io::Result<Option<&'a [u8]>>
        ensures next { IfOk result (GivesNext (λ s. Some s.now)
            (Some (map (λ text. text.items) self.old.left.now)) (Some (map (λ text. text.items) self.new.left.now))) }
        ensures succeeds { IsOk result }
    {
        let Some((first, others)) = self.left.split_first() else {
            return Ok(None);
        };
        self.left = others;
        Ok(Some(first.as_slice()))
    }
}

/// Inserts the lines of one text.
fn add_source<A: Allocator + Clone, B: Allocator, R: TextReader, W: Watch>(
    sketch: &mut ThetaSketch<A>,
    alloc: B,
    hashing: Hashing,
    reader: &mut R,
    watch: &mut W,
) -> Result<(), ReadError>
    ensures lines { IfSome (R.remaining reader.old) (λ text.
        OnOk result (line_state sketch.new ≡ with_lines hashing (line_state sketch.old) (lines_of text))) }
    ensures refused { RefusesRead result None }
    ensures fallible { IfErr result (FailsIf R.may_fail) }
{
    let mut block = vec![in alloc; 0u8; BLOCK]?;
    add_lines(sketch, hashing, reader, &mut block, watch)
}

/// Inserts the lines of all texts, each cut into lines by itself: a last line without an LF isn't joined to the next
/// text. The seed of `hashing` should be the sketch's, which is not checked.
///
/// Refused only with `OutOfMemory`. If a source fails or can't be opened, its error is returned: only if sources may
/// fail, so never for texts in memory. After an error, some of the first lines are inserted; no clause says which.
pub fn add_sources<A: Allocator + Clone, B: Allocator + Clone + Drop, S: Sources, W: Watch>(
    sketch: &mut ThetaSketch<A>,
    alloc: B,
    hashing: Hashing,
    sources: &mut S,
    watch: &mut W,
) -> Result<(), ReadError>
    ensures lines { IfSome (S.texts sources.old) (λ texts.
        OnOk result (line_state sketch.new ≡ with_lines hashing (line_state sketch.old) (lines_of_all texts))) }
    ensures refused { RefusesRead result None }
    ensures fallible { IfErr result (FailsIf S.may_fail) }
{
    for _ in 0..u64::MAX {
        match sources.next_source() {
            Ok(Some(mut source)) => {
                add_source(sketch, alloc.clone()?, hashing, &mut source, watch)?;
            }
            Ok(None) => return Ok(()),
            Err(error) => return Err(read_failure(S::may_fail(), error)),
        }
    }
    Err(ReadError::Refused(Error::from(AllocError)))
}

/// The sketch of the lines of all texts, each text cut into lines by itself. Refused with `InvalidArgument` only for
/// an `lg_k` that isn't from 4 to 26 or a seed whose seed hash is 0, and with `OutOfMemory`. If a source fails, or
/// can't be opened, its error is returned: only if sources may fail, so never for texts in memory. For a wrong `lg_k`
/// or seed nothing is read; no clause says so.
pub fn sketch_sources<A: Allocator + Clone + Drop, S: Sources, W: Watch>(
    alloc: A,
    hashing: Hashing,
    lg_k: u8,
    sources: &mut S,
    watch: &mut W,
) -> Result<CompactThetaSketch<A>, ReadError>
    ensures sketch { IfSome (S.texts sources.old) (λ texts.
        IfOk result (λ s. s ≡ sketch_of_value hashing.seed (value_of_lines hashing lg_k (lines_of_all texts)))) }
    ensures refused { RefusesRead result (settings_refusal lg_k MAX_THETA hashing.seed) }
    ensures fallible { IfErr result (FailsIf S.may_fail) }
{
    let mut sketch = new_sketch(alloc.clone()?, hashing.seed, lg_k)?;
    add_sources(&mut sketch, alloc, hashing, sources, watch)?;
    Ok(trim_and_compact(&mut sketch)?)
}
