//! Objects of lines, their memory and their calls.
use crate::words::{Fault, cut_word};
use std::alloc::Global;
use tests_allocator::{Refusal, Refusing};

/// The memory of objects: its requests are counted, and some are refused.
pub type Heap = Refusing<Global>;

/// The memory of objects during a call, and which of the call's requests are refused.
#[derive(Clone, Copy)]
pub struct Memory<'h> {
    pub heap: &'h Heap,
    pub refusal: Refusal,
}

impl<'h> Memory<'h> {
    /// Memory that is never refused.
    pub fn plain(&self) -> Global {
        *self.heap.inner()
    }

    /// Refuses no request from now on, while operands are made.
    pub fn pause(&self) {
        self.heap.restart(Refusal::Never);
    }

    /// Counts requests from 0 again, and refuses those of the call. Each call begins so.
    pub fn refuse(&self) {
        self.heap.restart(self.refusal);
    }

    /// The bytes requested since the call began.
    pub fn bytes(&self) -> u64 {
        self.heap.bytes()
    }

    /// The number of requests since the call began.
    pub fn requests(&self) -> u64 {
        self.heap.seen()
    }
}

/// A call in words: what is called, and with what.
#[derive(Clone, Copy)]
pub struct Call<'w> {
    pub verb: &'w str,
    pub argument: &'w str,
}

impl<'w> Call<'w> {
    /// The call of a text: its first word, and what is behind it.
    pub fn read(text: &'w str) -> Call<'w> {
        let (verb, argument) = cut_word(text);
        Call { verb, argument }
    }
}

/// What a call that was refused for memory leaves.
#[derive(Clone, Copy, PartialEq, Eq)]
pub enum Left {
    /// What was there before.
    Unchanged,
    /// What a beginning of its list makes.
    Beginning,
    /// An object that refuses each call with `Failed`, until it is reset.
    Failed,
}

/// An object of lines, in memory of `A`.
pub trait Object<A>: Sized {
    /// Makes it of its settings. What isn't of the object is in plain memory, which is never refused.
    fn make(plain: Global, alloc: A, settings: &str) -> Result<Self, Fault>;

    /// Makes a call, and appends its answer.
    fn call(
        &mut self,
        memory: Memory<'_>,
        call: Call<'_>,
        answer: &mut String,
    ) -> Result<(), Fault>;

    /// Appends all that can be seen of it: `ok` if that is nothing.
    fn see(&self, text: &mut String) -> Result<(), Fault> {
        text.push_str("ok")?;
        Ok(())
    }

    /// What a call of this verb leaves if it is refused for memory.
    fn left_by(_verb: &str) -> Left {
        Left::Unchanged
    }

    /// Whether it refuses calls with `Failed`, as after a merge that was refused for memory.
    fn is_failed(&mut self, _plain: Global) -> Result<bool, Fault> {
        Ok(false)
    }

    /// Makes it empty again, and ends its failure.
    fn reset(&mut self) {}
}

/// An operand of a call, whose own memory is of `A`.
pub trait Operand<A>: Sized {
    /// The operand of a word. What isn't of it is in plain memory, which is never refused. Its errors are those of an
    /// operand.
    fn read(plain: Global, alloc: A, word: &str) -> Result<Self, Fault>;
}

/// The operand of a word. No request for its memory is refused.
pub fn operand_of<O: Operand<A>, A>(memory: Memory<'_>, alloc: A, word: &str) -> Result<O, Fault> {
    memory.pause();
    let operand = O::read(memory.plain(), alloc, word);
    memory.refuse();
    operand
}

/// The operands of words with blanks between; none of an empty text.
fn read_operands<O: Operand<A> + Drop, A: Copy>(
    plain: Global,
    alloc: A,
    words: &str,
) -> Result<Vec<O>, Fault> {
    let mut operands = Vec::new(plain);
    if !words.is_empty() {
        for word in words.split(' ') {
            operands.push(O::read(plain, alloc, word)?)?;
        }
    }
    Ok(operands)
}

/// The operands of words with blanks between; none of an empty text. No request for their memory is refused.
pub fn operands_of<O: Operand<A> + Drop, A: Copy>(
    memory: Memory<'_>,
    alloc: A,
    words: &str,
) -> Result<Vec<O>, Fault> {
    memory.pause();
    let operands = read_operands(memory.plain(), alloc, words);
    memory.refuse();
    operands
}
