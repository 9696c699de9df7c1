//! Tuple sketches as operands.
use calls_language::object::Operand;
use calls_language::series::spread_of;
use calls_language::settings::Settings;
use calls_language::words::{Fault, bytes_of, number};
use calls_policies::{FromWord, Summary};
use std::alloc::{Allocator, Global};
use tuple_sketches::{
    CompactTupleSketch, SummaryPolicy, SummaryUpdatePolicy, TupleSketch, TupleSketchBuilder,
    TupleSketchView,
};

/// The builder of a policy with these settings.
fn builder_of<P>(policy: P, settings: Settings) -> TupleSketchBuilder<P> {
    let mut builder = TupleSketchBuilder::new(policy);
    if let Some(lg_k) = settings.lg_k {
        builder = builder.lg_k(lg_k);
    }
    if let Some(factor) = settings.factor {
        builder = builder.resize_factor(factor);
    }
    if let Some(start) = settings.start {
        builder = builder.starting_theta(start);
    }
    if let Some(seed) = settings.seed {
        builder = builder.seed(seed);
    }
    builder
}

/// A sketch of a policy and these settings.
pub fn sketch_of<P: SummaryPolicy + Drop, A: Allocator + Drop>(
    alloc: A,
    policy: P,
    settings: Settings,
) -> Result<TupleSketch<P, A>, Fault> {
    Ok(builder_of(policy, settings).build(alloc)?)
}

/// A text before the last colon, and what is behind it.
pub fn cut_value(words: &str) -> Result<(&str, &str), Fault> {
    match words.rsplit_once(':') {
        Some(parts) => Ok(parts),
        None => Err(Fault::Unknown),
    }
}

/// Updates a sketch with a value at a key.
pub fn update<S: Drop, P: SummaryUpdatePolicy<S>, A: Allocator + Clone>(
    plain: Global,
    sketch: &mut TupleSketch<P, A>,
    key: &str,
    value: S,
) -> Result<(), Fault> {
    match key.split_once(':') {
        Some(("text", text)) => sketch.update(text, value)?,
        Some(("u64", key)) => sketch.update(number(key)?, value)?,
        Some(("i32", key)) => {
            sketch.update(key.parse::<i32>().map_err(|_| Fault::Unknown)?, value)?;
        }
        Some(("bytes", digits)) => sketch.update(bytes_of(plain, digits)?.as_slice(), value)?,
        _ => return Err(Fault::Unknown),
    }
    Ok(())
}

/// Updates a sketch with a value at a hash or a key.
fn add<S: Summary<A>, P: SummaryUpdatePolicy<S, Summary = S>, A: Allocator + Copy>(
    plain: Global,
    alloc: A,
    sketch: &mut TupleSketch<P, A>,
    word: &str,
) -> Result<(), Fault> {
    let (key, value) = cut_value(word)?;
    let value = S::read(alloc, value)?;
    if key.split_once(':').is_some() {
        return update(plain, sketch, key, value);
    }
    sketch.update_hash(number(key)?, value)?;
    Ok(())
}

/// Makes a step of an operand: a value at a series of hashes or of keys, `trim` or `reset`.
fn take_step<S: Summary<A>, P: SummaryUpdatePolicy<S, Summary = S>, A: Allocator + Copy>(
    plain: Global,
    alloc: A,
    sketch: &mut TupleSketch<P, A>,
    step: &str,
) -> Result<(), Fault> {
    match step {
        "trim" => sketch.trim()?,
        "reset" => sketch.reset(),
        _ => match spread_of(plain, step)? {
            Some(spread) => {
                for number in &spread.numbers {
                    let word = spread.argument(plain, *number)?;
                    add(plain, alloc, sketch, word.as_str())?;
                }
            }
            None => add(plain, alloc, sketch, step)?,
        },
    }
    Ok(())
}

/// The sketch of SETTINGS/STEPS.
fn stepped<
    S: Summary<A>,
    P: SummaryUpdatePolicy<S, Summary = S> + FromWord<A> + Drop,
    A: Allocator + Copy + Drop,
>(plain: Global, alloc: A, words: &str) -> Result<TupleSketch<P, A>, Fault> {
    let (settings, steps) = words.split_once('/').unwrap_or((words, ""));
    let policy = P::from_word(alloc, "")?;
    let mut sketch = sketch_of(alloc, policy, Settings::read(settings, ',')?)?;
    if !steps.is_empty() {
        for step in steps.split(',') {
            take_step::<S, P, A>(plain, alloc, &mut sketch, step)?;
        }
    }
    Ok(sketch)
}

/// The sketch of an image, HEX or HEX@SEED.
fn read_image<S: Summary<A>, A: Allocator + Copy + Drop>(
    plain: Global,
    alloc: A,
    word: &str,
) -> Result<CompactTupleSketch<S, A>, Fault> {
    match word.split_once('@') {
        Some((digits, seed)) => {
            let bytes = bytes_of(plain, digits)?;
            let seed = number(seed)?;
            Ok(CompactTupleSketch::deserialize_with_seed(alloc, bytes.as_slice(), seed)?)
        }
        None => {
            let bytes = bytes_of(plain, word)?;
            Ok(CompactTupleSketch::deserialize(alloc, bytes.as_slice())?)
        }
    }
}

/// The compact sketch of a word.
pub fn compact_of<
    S: Summary<A>,
    P: SummaryUpdatePolicy<S, Summary = S> + FromWord<A> + Drop,
    A: Allocator + Copy + Drop,
>(plain: Global, alloc: A, word: &str) -> Result<CompactTupleSketch<S, A>, Fault> {
    match word.split_once(':') {
        Some(("image", rest)) => read_image(plain, alloc, rest),
        Some(("compact", rest)) => Ok(stepped::<S, P, A>(plain, alloc, rest)?.compact(true)?),
        Some(("unordered", rest)) => Ok(stepped::<S, P, A>(plain, alloc, rest)?.compact(false)?),
        _ => Err(Fault::Unknown),
    }
}

/// A tuple sketch as an operand.
#[derive(Drop)]
pub enum TupleOperand<P: SummaryPolicy, A: Allocator> {
    Updatable(TupleSketch<P, A>),
    Compact(CompactTupleSketch<P::Summary, A>),
}

impl<
    S: Summary<A>,
    P: SummaryUpdatePolicy<S, Summary = S> + FromWord<A> + Drop,
    A: Allocator + Copy + Drop,
> Operand<A> for TupleOperand<P, A> {
    fn read(plain: Global, alloc: A, word: &str) -> Result<TupleOperand<P, A>, Fault> {
        match word.strip_prefix("sketch:") {
            Some(rest) => match stepped::<S, P, A>(plain, alloc, rest) {
                Ok(sketch) => Ok(TupleOperand::Updatable(sketch)),
                Err(fault) => Err(fault.of_operand()),
            },
            None => match compact_of::<S, P, A>(plain, alloc, word) {
                Ok(sketch) => Ok(TupleOperand::Compact(sketch)),
                Err(fault) => Err(fault.of_operand()),
            },
        }
    }
}

impl<S: Drop, P: SummaryPolicy<Summary = S>, A: Allocator> TupleOperand<P, A> {
    /// Its view.
    pub fn view(&self) -> TupleSketchView<'_, S, A> {
        match self {
            TupleOperand::Updatable(sketch) => sketch.as_view(),
            TupleOperand::Compact(sketch) => sketch.as_view(),
        }
    }
}
