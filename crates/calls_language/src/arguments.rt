//! The arguments of calls on the layers below sketches.
use crate::words::{Fault, bytes_of, cut_word, put_bytes};
use sketch_base::ErrorKind;
use std::alloc::{AllocError, Global};

/// The two words of an argument, which has just two.
pub fn two_words(argument: &str) -> Result<(&str, &str), Fault> {
    let (first, second) = cut_word(argument);
    if second.is_empty() || second.split_once(' ').is_some() {
        return Err(Fault::Unknown);
    }
    Ok((first, second))
}

/// The three words of an argument, which has just three.
pub fn three_words(argument: &str) -> Result<(&str, &str, &str), Fault> {
    let (first, rest) = cut_word(argument);
    let (second, third) = two_words(rest)?;
    Ok((first, second, third))
}

/// The four words of an argument, which has just four.
pub fn four_words(argument: &str) -> Result<(&str, &str, &str, &str), Fault> {
    let (first, rest) = cut_word(argument);
    let (second, third, fourth) = three_words(rest)?;
    Ok((first, second, third, fourth))
}

/// A number below 65536.
pub fn half_number(word: &str) -> Result<u16, Fault> {
    word.parse::<u16>().map_err(|_| Fault::Unknown)
}

/// A number below 2^32.
pub fn word_number(word: &str) -> Result<u32, Fault> {
    word.parse::<u32>().map_err(|_| Fault::Unknown)
}

/// A number of bytes or entries that this program reserves memory for.
pub fn room_of(word: &str) -> Result<usize, Fault> {
    let room = half_number(word)?;
    Ok(room as usize)
}

/// The kind of errors of a word.
pub fn kind_of(word: &str) -> Result<ErrorKind, Fault> {
    match word {
        "argument" => Ok(ErrorKind::InvalidArgument),
        "data" => Ok(ErrorKind::InvalidData),
        "memory" => Ok(ErrorKind::OutOfMemory),
        "policy" => Ok(ErrorKind::Policy),
        "failed" => Ok(ErrorKind::Failed),
        _ => Err(Fault::Unknown),
    }
}

/// The bytes of a word: hexadecimal digits, or `-` for none.
pub fn hex_of(plain: Global, word: &str) -> Result<Vec<u8>, Fault> {
    match word {
        "-" => Ok(Vec::new(plain)),
        "" => Err(Fault::Unknown),
        digits => bytes_of(plain, digits),
    }
}

/// Appends bytes in hexadecimal digits, or `-` if there are none.
pub fn put_hex(text: &mut String, bytes: &[u8]) -> Result<(), AllocError> {
    if bytes.is_empty() {
        return text.push('-');
    }
    put_bytes(text, bytes)
}

/// Appends `true` or `false`.
pub fn put_truth(text: &mut String, truth: bool) -> Result<(), AllocError> {
    text.push_str(if truth { "true" } else { "false" })
}

/// Appends a number.
pub fn put_number(text: &mut String, number: u64) -> Result<(), AllocError> {
    write!(text, "{number}")
}
