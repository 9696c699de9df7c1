//! The functions on the preambles of images.
use calls_language::arguments::{four_words, hex_of, put_number, two_words, word_number};
use calls_language::object::Call;
use calls_language::shown::order_word;
use calls_language::words::{Fault, number, order_flag, small_number};
use std::alloc::{AllocError, Global};
use theta_core::image::{
    Flaw, Head, ImageLayout, Preamble, announced, count_at, count_of, flaw_of_image, is_followed,
    layout_of, length_of, reader_seed_hash, seed_hash_at, theta_at, theta_head, tuple_head,
};

/// Appends a preamble.
fn put_preamble(answer: &mut String, preamble: Preamble) -> Result<(), AllocError> {
    let Preamble {
        start,
        count,
        theta,
        ordered,
    } = preamble;
    let order = order_word(ordered);
    write!(answer, "{start} {count} {theta} {order}")
}

/// Appends a layout.
fn put_layout(answer: &mut String, layout: Result<ImageLayout, Flaw>) -> Result<(), AllocError> {
    match layout {
        Err(_) => answer.push_str("none"),
        Ok(ImageLayout::Empty) => answer.push_str("empty"),
        Ok(ImageLayout::Filled(preamble)) => put_preamble(answer, preamble),
    }
}

/// The preamble of an argument.
fn announced_of(argument: &str) -> Result<Preamble, Fault> {
    let (longs, count, theta, order) = four_words(argument)?;
    Ok(announced(
        small_number(longs)?,
        word_number(count)?,
        number(theta)?,
        order_flag(order)?,
    ))
}

/// Appends what the head of an image says: its length, the number of its entries, whether bytes follow it, its layout
/// for a reader of the seed, and the flaw of bytes that aren't read as one image.
fn put_head(
    answer: &mut String,
    bytes: &[u8],
    head: Result<Head, Flaw>,
    seed: u64,
) -> Result<(), AllocError> {
    match length_of(head) {
        None => answer.push_str("none ")?,
        Some(length) => write!(answer, "{length} ")?,
    }
    let count = count_of(head);
    let word = if is_followed(bytes, head) {
        "longer"
    } else {
        "alone"
    };
    write!(answer, "{count} {word} ")?;
    let seed_hash = reader_seed_hash(seed);
    put_layout(answer, layout_of(seed_hash, bytes.len(), head))?;
    let flaw = flaw_of_image(bytes, seed_hash, head);
    write!(answer, " {flaw:?}")
}

/// Appends what the preamble of an image says, of a theta sketch or of a tuple sketch with summaries of eight bytes.
fn put_image(
    answer: &mut String,
    plain: Global,
    argument: &str,
    is_tuple: bool,
) -> Result<(), Fault> {
    let (digits, seed) = two_words(argument)?;
    let bytes = hex_of(plain, digits)?;
    let seed = number(seed)?;
    let head = if is_tuple {
        tuple_head(16, bytes.as_slice())
    } else {
        theta_head(bytes.as_slice())
    };
    put_head(answer, bytes.as_slice(), head, seed)?;
    Ok(())
}

/// Appends the seed hash of an image.
fn put_seed_hash(answer: &mut String, bytes: &[u8]) -> Result<(), Fault> {
    if bytes.len() < 8 {
        return Err(Fault::Condition);
    }
    put_number(answer, seed_hash_at(bytes) as u64)?;
    Ok(())
}

/// Appends the count of an image.
fn put_count(answer: &mut String, bytes: &[u8]) -> Result<(), Fault> {
    if bytes.len() < 12 {
        return Err(Fault::Condition);
    }
    put_number(answer, count_at(bytes) as u64)?;
    Ok(())
}

/// Appends the theta of an image.
fn put_theta(answer: &mut String, bytes: &[u8]) -> Result<(), Fault> {
    if bytes.len() < 24 {
        return Err(Fault::Condition);
    }
    put_number(answer, theta_at(bytes))?;
    Ok(())
}

/// Appends the answer of a function on preambles.
pub fn put(answer: &mut String, plain: Global, call: Call<'_>) -> Result<(), Fault> {
    let argument = call.argument;
    match call.verb {
        "seed_hash_at" => put_seed_hash(answer, hex_of(plain, argument)?.as_slice()),
        "count_at" => put_count(answer, hex_of(plain, argument)?.as_slice()),
        "theta_at" => put_theta(answer, hex_of(plain, argument)?.as_slice()),
        "announced" => {
            put_preamble(answer, announced_of(argument)?)?;
            Ok(())
        }
        "theta_image" => put_image(answer, plain, argument, false),
        "tuple_image" => put_image(answer, plain, argument, true),
        _ => Err(Fault::Unknown),
    }
}
