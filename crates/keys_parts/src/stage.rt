//! The stages of a reader of a part, and what they pass on of a block of bytes.
ghost use Rattle.std.specs.Prelude.{◌≡◌, ℕ, true, List, [], ◌++◌, ◌≤◌, length, take, IfNone, IfSome};
ghost use Rattle.keys_parts.specs.Stages.{passed, skipped, rest_of, BeginsAfter, HasNoEnd};

use keys_lines::cut_line;

/// How far a reader of a part is.
#[derive(Clone, Copy, Debug, PartialEq, Eq)]
pub(crate) enum Stage {
    /// All bytes are passed on.
    Whole,
    /// A line of the part begins after the first LF of so many bytes. If they have none, the part has no line.
    Skipping(u64),
    /// So many bytes are passed on, and then those through the next LF.
    Passing(u64),
    /// No byte is passed on.
    Ended,
}

/// How many bytes of a block are passed on, and the stage after it. So many bytes are passed on, and then those
/// through the next LF.
fn pass(before: u64, block: &[u8]) -> (Stage, usize)
    ensures within { result.1 ≤ length block.now }
    ensures passes { (more : List ℕ)
        → passed before (block.now ++ more) ≡ take result.1 block.now ++ rest_of result.0 more }
{
    if block.len() as u64 <= before {
        return (Stage::Passing(before - block.len() as u64), block.len());
    }
    let count = before as usize;
    match cut_line(&block[count..]) {
        Some((line, _)) => (Stage::Ended, count + line.len() + 1),
        None => (Stage::Passing(0), block.len()),
    }
}

/// How many bytes of a block there are through the first LF of its first `count`, or all of it; `None` if they have no
/// LF.
fn first_end(count: u64, block: &[u8]) -> Option<usize>
    ensures none { IfNone result (HasNoEnd count block.now) }
    ensures found { IfSome result (λ end. BeginsAfter count block.now end) }
{
    let looked = if count < block.len() as u64 {
        count as usize
    } else {
        block.len()
    };
    let (line, _) = cut_line(&block[..looked])?;
    Some(line.len() + 1)
}

/// Moves the bytes that a block has of a part to its front. Returns their number, and the stage after the block. A
/// line of the part begins after the first LF of the first `count` bytes.
fn skip(count: u64, block: &mut [u8]) -> (Stage, usize)
    ensures within { result.1 ≤ length block.old }
    ensures kept { length block.new ≡ length block.old }
    ensures skips { (more : List ℕ)
        → skipped count (block.old ++ more) ≡ take result.1 block.new ++ rest_of result.0 more }
{
    let length = block.len();
    let Some(end) = first_end(count, block) else {
        return if count <= length as u64 {
            (Stage::Ended, 0)
        } else {
            (Stage::Skipping(count - length as u64), 0)
        };
    };
    block.copy_within(end.., 0);
    pass(count - end as u64, &block[..length - end])
}

impl Stage {
    /// Whether no byte is passed on.
    pub(crate) fn is_ended(self) -> bool
        ensures { (text : List ℕ) → result ≡ true → rest_of self text ≡ [] }
    {
        matches!(self, Stage::Ended)
    }

    /// Moves the bytes that a block has of the part to its front. Returns their number, and the stage after the block.
    pub(crate) fn after(self, block: &mut [u8]) -> (Stage, usize)
        ensures within { result.1 ≤ length block.old }
        ensures kept { length block.new ≡ length block.old }
        ensures leaves { (more : List ℕ)
            → rest_of self (block.old ++ more) ≡ take result.1 block.new ++ rest_of result.0 more }
    {
        match self {
            Stage::Whole => (Stage::Whole, block.len()),
            Stage::Skipping(count) => skip(count, block),
            Stage::Passing(before) => pass(before, block),
            Stage::Ended => (Stage::Ended, 0),
        }
    }
}
