//! Theta sketches as operands, and what is shown of theta sketches.
use calls_language::object::Operand;
use calls_language::series::spread_of;
use calls_language::settings::Settings;
use calls_language::shown::{
    Facts, order_word, put_facts, put_hashes, put_metadata, put_same, put_viewed,
};
use calls_language::words::{Fault, bytes_of, number};
use std::alloc::{AllocError, Allocator, Global};
use theta_core::{EntrySketch, KeySketch, SketchView, ThetaEntry};
use theta_sketches::{
    CompactThetaSketch, ThetaSketch, ThetaSketchBuilder, ThetaSketchIter, ThetaSketchView,
};

/// The builder with these settings.
fn builder_of(settings: Settings) -> ThetaSketchBuilder {
    let mut builder = ThetaSketchBuilder::default();
    if let Some(lg_k) = settings.lg_k {
        builder = builder.lg_k(lg_k);
    }
    if let Some(factor) = settings.factor {
        builder = builder.resize_factor(factor);
    }
    if let Some(start) = settings.start {
        builder = builder.starting_theta(start);
    }
    if let Some(seed) = settings.seed {
        builder = builder.seed(seed);
    }
    builder
}

/// A sketch of these settings.
pub fn sketch_of<A: Allocator + Drop>(
    alloc: A,
    settings: Settings,
) -> Result<ThetaSketch<A>, Fault> {
    Ok(builder_of(settings).build(alloc)?)
}

/// Updates a sketch with a key.
pub fn update<A: Allocator + Clone>(
    plain: Global,
    sketch: &mut ThetaSketch<A>,
    key: &str,
) -> Result<(), Fault> {
    match key.split_once(':') {
        Some(("text", text)) => sketch.update(text)?,
        Some(("u64", value)) => sketch.update(number(value)?)?,
        Some(("i32", value)) => {
            sketch.update(value.parse::<i32>().map_err(|_| Fault::Unknown)?)?;
        }
        Some(("bytes", digits)) => sketch.update(bytes_of(plain, digits)?.as_slice())?,
        _ => return Err(Fault::Unknown),
    }
    Ok(())
}

/// Updates a sketch with a hash or a key.
fn add<A: Allocator + Clone>(
    plain: Global,
    sketch: &mut ThetaSketch<A>,
    word: &str,
) -> Result<(), Fault> {
    if word.split_once(':').is_some() {
        return update(plain, sketch, word);
    }
    sketch.update_hash(number(word)?)?;
    Ok(())
}

/// Makes a step of an operand: a series of hashes or of keys, `trim` or `reset`.
fn take_step<A: Allocator + Clone>(
    plain: Global,
    sketch: &mut ThetaSketch<A>,
    step: &str,
) -> Result<(), Fault> {
    match step {
        "trim" => sketch.trim()?,
        "reset" => sketch.reset(),
        _ => match spread_of(plain, step)? {
            Some(spread) => {
                for number in &spread.numbers {
                    let word = spread.argument(plain, *number)?;
                    add(plain, sketch, word.as_str())?;
                }
            }
            None => add(plain, sketch, step)?,
        },
    }
    Ok(())
}

/// The sketch of SETTINGS/STEPS.
fn stepped<A: Allocator + Clone + Drop>(
    plain: Global,
    alloc: A,
    words: &str,
) -> Result<ThetaSketch<A>, Fault> {
    let (settings, steps) = words.split_once('/').unwrap_or((words, ""));
    let mut sketch = sketch_of(alloc, Settings::read(settings, ',')?)?;
    if !steps.is_empty() {
        for step in steps.split(',') {
            take_step(plain, &mut sketch, step)?;
        }
    }
    Ok(sketch)
}

/// The sketch of an image, HEX or HEX@SEED.
pub fn read_image<A: Allocator + Clone + Drop>(
    plain: Global,
    alloc: A,
    word: &str,
) -> Result<CompactThetaSketch<A>, Fault> {
    match word.split_once('@') {
        Some((digits, seed)) => {
            let bytes = bytes_of(plain, digits)?;
            let seed = number(seed)?;
            Ok(CompactThetaSketch::deserialize_with_seed(alloc, bytes.as_slice(), seed)?)
        }
        None => Ok(CompactThetaSketch::deserialize(alloc, bytes_of(plain, word)?.as_slice())?),
    }
}

/// The compact sketch of a word.
pub fn compact_of<A: Allocator + Clone + Drop>(
    plain: Global,
    alloc: A,
    word: &str,
) -> Result<CompactThetaSketch<A>, Fault> {
    match word.split_once(':') {
        Some(("image", rest)) => read_image(plain, alloc, rest),
        Some(("compact", rest)) => Ok(stepped(plain, alloc, rest)?.compact(true)?),
        Some(("unordered", rest)) => Ok(stepped(plain, alloc, rest)?.compact(false)?),
        _ => Err(Fault::Unknown),
    }
}

/// A theta sketch as an operand.
#[derive(Drop)]
pub enum ThetaOperand<A: Allocator> {
    Updatable(ThetaSketch<A>),
    Compact(CompactThetaSketch<A>),
}

impl<A: Allocator + Clone + Drop> Operand<A> for ThetaOperand<A> {
    fn read(plain: Global, alloc: A, word: &str) -> Result<ThetaOperand<A>, Fault> {
        match word.strip_prefix("sketch:") {
            Some(rest) => match stepped(plain, alloc, rest) {
                Ok(sketch) => Ok(ThetaOperand::Updatable(sketch)),
                Err(fault) => Err(fault.of_operand()),
            },
            None => match compact_of(plain, alloc, word) {
                Ok(sketch) => Ok(ThetaOperand::Compact(sketch)),
                Err(fault) => Err(fault.of_operand()),
            },
        }
    }
}

impl<A: Allocator> ThetaOperand<A> {
    /// Its view.
    pub fn view(&self) -> ThetaSketchView<'_, A> {
        match self {
            ThetaOperand::Updatable(sketch) => sketch.as_view(),
            ThetaOperand::Compact(sketch) => sketch.as_view(),
        }
    }
}

/// The hashes of an iterator's entries, in its order.
fn hashes_in(plain: Global, entries: ThetaSketchIter<'_>) -> Result<Vec<u64>, AllocError> {
    let mut hashes = Vec::new(plain);
    for entry in entries {
        hashes.push(entry.hash())?;
    }
    Ok(hashes)
}

/// Appends the hashes of an iterator's entries, ascending if that is wanted, else in its order.
fn put_entries(
    text: &mut String,
    entries: ThetaSketchIter<'_>,
    ascending: bool,
) -> Result<(), AllocError> {
    let mut hashes = hashes_in(*text.allocator(), entries)?;
    if ascending {
        hashes.sort_unstable();
    }
    put_hashes(text, hashes.as_slice())
}

/// Appends a sketch that takes updates.
pub fn put_sketch<A: Allocator>(
    text: &mut String,
    sketch: &ThetaSketch<A>,
) -> Result<(), AllocError> {
    let facts = Facts {
        empty: sketch.is_empty(),
        theta: sketch.theta64(),
        count: sketch.num_retained(),
        fraction: sketch.estimate_fraction(),
        estimating: sketch.is_estimation_mode(),
        seed_hash: sketch.seed_hash(),
    };
    put_facts(text, facts)?;
    let lg_k = sketch.lg_k();
    let size = sketch.estimated_size();
    write!(text, " lg_k={lg_k} size={size}")?;
    put_entries(text, sketch.iter(), true)
}

/// Appends a compact sketch, with its entries in their order, or ascending.
pub fn put_compact<A: Allocator>(
    text: &mut String,
    sketch: &CompactThetaSketch<A>,
    ascending: bool,
) -> Result<(), AllocError> {
    let facts = Facts {
        empty: sketch.is_empty(),
        theta: sketch.theta64(),
        count: sketch.num_retained(),
        fraction: sketch.estimate_fraction(),
        estimating: sketch.is_estimation_mode(),
        seed_hash: sketch.seed_hash(),
    };
    put_facts(text, facts)?;
    let order = order_word(sketch.is_ordered());
    let size = sketch.estimated_size();
    write!(text, " {order} size={size}")?;
    put_entries(text, sketch.iter(), ascending)
}

/// Appends a compact sketch that a call returned, and its image if it is ordered.
pub fn put_answer<A: Allocator + Clone + Drop>(
    text: &mut String,
    sketch: &CompactThetaSketch<A>,
) -> Result<(), Fault> {
    put_compact(text, sketch, !sketch.is_ordered())?;
    if sketch.is_ordered() {
        text.push_str(" image=")?;
        calls_language::shown::put_image(text, sketch.serialize())?;
    }
    Ok(())
}

/// Whether the hashes of a view, by its `hashes` and by its `entries`, are these.
fn has_hashes<'v, A: Allocator>(
    view: SketchView<'v, ThetaEntry, A>,
    plain: Global,
    wanted: &[u64],
) -> Result<bool, AllocError> {
    let mut hashes = Vec::new(plain);
    for hash in view.hashes() {
        hashes.push(hash)?;
    }
    let mut listed = Vec::new(plain);
    for entry in view.entries() {
        listed.push(entry.hash())?;
    }
    Ok(hashes.as_slice() == wanted && listed.as_slice() == wanted)
}

/// Appends a view of a sketch.
pub fn put_view<A: Allocator>(
    text: &mut String,
    view: ThetaSketchView<'_, A>,
) -> Result<(), AllocError> {
    let ordered = view.is_ordered();
    put_viewed(
        text,
        view.is_empty(),
        view.theta64(),
        view.num_retained(),
        view.seed_hash(),
        ordered,
    )?;
    put_entries(text, view.iter(), !ordered)?;
    put_metadata(text, view.metadata())?;
    let plain = *text.allocator();
    let same = has_hashes(view, plain, hashes_in(plain, view.iter())?.as_slice())?;
    put_same(text, same)
}
