//! Summaries that borrow: their type has a lifetime, and so has the type of their sketch.
ghost use Rattle.std.specs.Prelude.{Some, false};

use std::alloc::Global;
use std::test::Fail;
use tuple_sketches::{
    Error, SummaryCombinePolicy, SummaryPolicy, SummaryUpdatePolicy, TupleSketchBuilder,
    TupleUnion, TupleUnionBuilder,
};

/// Keeps the last word that came with a key.
#[derive(Debug, Clone, Copy)]
struct LastWord<'a> {
    first: &'a str,
}

impl<'a> SummaryPolicy for LastWord<'a> {
    type Summary = &'a str;

    ghost creates = { λ policy. Some policy.first };

    ghost takes_memory = { λ policy. false };

    fn create(&self) -> Result<&'a str, Error> {
        Ok(self.first)
    }
}

impl<'a> SummaryUpdatePolicy<&'a str> for LastWord<'a> {
    ghost updates = { λ policy last word. Some word };

    fn update(&self, last: &mut &'a str, word: &'a str) -> Result<(), Error> {
        *last = word;
        Ok(())
    }
}

impl<'a> SummaryCombinePolicy for LastWord<'a> {
    ghost combines = { λ policy last incoming. Some incoming };

    fn combine(&self, last: &mut &'a str, incoming: &&'a str) -> Result<(), Error> {
        *last = *incoming;
        Ok(())
    }
}

/// Updates a union with a sketch of the last word at each hash.
fn add<'a>(
    alloc: Global,
    union: &mut TupleUnion<LastWord<'a>>,
    words: &[(u64, &'a str)],
) -> Result<(), Error> {
    let mut sketch = TupleSketchBuilder::new(LastWord { first: "" }).build(alloc)?;
    for (hash, word) in words {
        sketch.update_hash(*hash, *word)?;
    }
    union.update(sketch.as_view())
}

/// The hashes of a union, each with its word.
fn listed<'a>(
    alloc: Global,
    union: &TupleUnion<LastWord<'a>>,
) -> Result<Vec<(u64, &'a str)>, Error> {
    let answer = union.to_sketch(true)?;
    let mut words = Vec::new(alloc);
    for entry in answer.iter() {
        words.push((entry.hash(), *entry.summary()))?;
    }
    Ok(words)
}

/// The words of the union of two lists of them.
fn last_words<'a>(
    alloc: Global,
    first: &[(u64, &'a str)],
    second: &[(u64, &'a str)],
) -> Result<Vec<(u64, &'a str)>, Error> {
    let mut union = TupleUnionBuilder::new(LastWord { first: "" }).build(alloc)?;
    add(alloc, &mut union, first)?;
    add(alloc, &mut union, second)?;
    listed(alloc, &union)
}

/// The last words, if one key is seen again in the first list and one in the second.
fn words_of<'a>(
    alloc: Global,
    green: &'a str,
    blue: &'a str,
) -> Result<Vec<(u64, &'a str)>, Error> {
    let first = [(9, blue), (4, green), (9, green)];
    last_words(alloc, &first, &[(4, blue), (6, green)])
}

#[test]
fn words_are_borrowed(rt: HostRuntime) -> Result<(), Fail> {
    let text = String::from_str(rt.alloc(), "green")?;
    let last = words_of(rt.alloc(), text.as_str(), "blue")?;
    let wanted = [(4, "blue"), (6, "green"), (9, "green")];
    assert_eq!(rt; last.as_slice(), wanted.as_slice());
    Ok(())
}
