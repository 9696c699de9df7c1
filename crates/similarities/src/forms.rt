//! The lines that are written of a similarity. Each ends in an LF. The only error is `AllocError`.
ghost use Rattle.std.specs.Prelude.{◌≡◌, ◌<◌, ◌+◌, ◌++◌, [], ◌∷◌, IfOk, OnOk, string_bytes};
ghost use Rattle.similarities.specs.Forms.{bounded_text, json_counts, json_share, last_digits, share_text};
ghost use Rattle.similarities.specs.Forms.{similarity_line};
ghost use Rattle.similarities.specs.Forms.{similarity_json_line, similarity_json_rest, similarity_tsv_head};
ghost use Rattle.similarities.specs.Forms.{similarity_tsv_row};

use crate::similarity::{MILLION, Similarity};
use std::alloc::{AllocError, Allocator};

/// How many decimals the text of a share has.
const PLACES: u32 = 6;

/// Appends a digit.
fn put_digit<A: Allocator>(line: &mut String<A>, digit: u128) -> Result<(), AllocError>
    requires { digit < 10 }
    ensures { OnOk result (string_bytes line.new ≡ string_bytes line.old ++ (48 + digit) ∷ []) }
{
    line.push((b'0' + digit as u8) as char)
}

/// Appends the last digits of a number, this many, with zeros in front.
fn put_last_digits<A: Allocator>(
    line: &mut String<A>,
    number: u128,
    places: u32,
) -> Result<(), AllocError>
    ensures { OnOk result (string_bytes line.new ≡ string_bytes line.old ++ last_digits places number) }
{
    if places == 0 {
        return Ok(());
    }
    put_last_digits(line, number / 10, places - 1)?;
    put_digit(line, number % 10)?;
    Ok(())
}

/// Appends millionths as a decimal number of six decimals.
fn put_share<A: Allocator>(line: &mut String<A>, share: u128) -> Result<(), AllocError>
    ensures { OnOk result (string_bytes line.new ≡ string_bytes line.old ++ share_text share) }
{
    let whole = share / MILLION;
    write!(line, "{whole}.")?;
    put_last_digits(line, share % MILLION, PLACES)
}

/// Appends a share and its bounds, with these texts before the bounds.
fn put_bounded<A: Allocator>(
    line: &mut String<A>,
    similarity: Similarity,
    before_lower: &str,
    before_upper: &str,
) -> Result<(), AllocError>
    ensures { OnOk result (string_bytes line.new ≡ string_bytes line.old ++ bounded_text before_lower.now before_upper.now similarity) }
{
    put_share(line, similarity.share)?;
    line.push_str(before_lower)?;
    put_share(line, similarity.interval.lower)?;
    line.push_str(before_upper)?;
    put_share(line, similarity.interval.upper)
}

/// The line of a similarity: the share, and with bounds the lower and the upper one behind it, separated by spaces.
pub fn similarity_line<A: Allocator>(
    alloc: A,
    similarity: Similarity,
    with_bounds: bool,
) -> Result<String<A>, AllocError>
    ensures { IfOk result (λ text. string_bytes text ≡ similarity_line with_bounds similarity) }
{
    let mut line = String::new(alloc);
    if with_bounds {
        put_bounded(&mut line, similarity, " ", " ")?;
    } else {
        put_share(&mut line, similarity.share)?;
    }
    line.push_str("\n")?;
    Ok(line)
}

/// The first line of a table of similarities: the names of its columns, separated by tabs.
pub fn similarity_tsv_head<A: Allocator>(alloc: A) -> Result<String<A>, AllocError>
    ensures { IfOk result (λ text. string_bytes text ≡ similarity_tsv_head) }
{
    String::from_str(
        alloc,
        "similarity\tlower\tupper\texact\tshared\tunited\ttheta\n",
    )
}

/// The row of a similarity in a table: its values in the order of `similarity_tsv_head`, separated by tabs.
pub fn similarity_tsv_row<A: Allocator>(
    alloc: A,
    similarity: Similarity,
) -> Result<String<A>, AllocError>
    ensures { IfOk result (λ text. string_bytes text ≡ similarity_tsv_row similarity) }
{
    let exact = similarity.exact;
    let shared = similarity.shared;
    let united = similarity.united;
    let theta = similarity.theta;
    let mut row = String::new(alloc);
    put_bounded(&mut row, similarity, "\t", "\t")?;
    write!(row, "\t{exact}\t{shared}\t{united}\t{theta}\n")?;
    Ok(row)
}

/// Appends the share of a similarity and its bounds as fields of a JSON object.
fn put_json_share<A: Allocator>(
    line: &mut String<A>,
    similarity: Similarity,
) -> Result<(), AllocError>
    ensures { OnOk result (string_bytes line.new ≡ string_bytes line.old ++ json_share similarity) }
{
    line.push_str("\"similarity\":")?;
    put_bounded(line, similarity, ",\"lower\":", ",\"upper\":")
}

/// Appends the other fields of a similarity in a JSON object, and the end of the object and of its line.
fn put_json_counts<A: Allocator>(
    line: &mut String<A>,
    similarity: Similarity,
) -> Result<(), AllocError>
    ensures { OnOk result (string_bytes line.new ≡ string_bytes line.old ++ json_counts similarity) }
{
    let exact = similarity.exact;
    let shared = similarity.shared;
    let united = similarity.united;
    let theta = similarity.theta;
    write!(
        line,
        ",\"exact\":{exact},\"shared\":{shared},\"united\":{united},\"theta\":{theta}"
    )?;
    line.push_str("}\n")
}

/// Appends the fields of a similarity in a JSON object, and the end of the object and of its line.
pub fn put_similarity_json_rest<A: Allocator>(
    line: &mut String<A>,
    similarity: Similarity,
) -> Result<(), AllocError>
    ensures { OnOk result (string_bytes line.new ≡ string_bytes line.old ++ similarity_json_rest similarity) }
{
    put_json_share(line, similarity)?;
    put_json_counts(line, similarity)
}

/// A similarity as a JSON object on a line.
pub fn similarity_json_line<A: Allocator>(
    alloc: A,
    similarity: Similarity,
) -> Result<String<A>, AllocError>
    ensures { IfOk result (λ text. string_bytes text ≡ similarity_json_line similarity) }
{
    let mut line = String::from_str(alloc, "{")?;
    put_similarity_json_rest(&mut line, similarity)?;
    Ok(line)
}
