//! The lines that are written of the values of a stream that occur from some number of times to another. Each ends in
//! an LF. The only error is `AllocError`.
ghost use Rattle.std.specs.Prelude.{◌≡◌, IfOk, string_bytes};
ghost use Rattle.keys_reports.specs.Ranges.{range_json_line, range_line, range_text, range_tsv_head, range_tsv_row};

use crate::forms::{count_line, put_fields, tsv_head, tsv_row};
use crate::report::Report;
use std::alloc::{AllocError, Allocator};

/// A range of numbers, or one number if its ends are equal.
fn range_text<A: Allocator>(alloc: A, least: u128, greatest: u128) -> Result<String<A>, AllocError>
    ensures { IfOk result (λ text. string_bytes text ≡ range_text least greatest) }
{
    if least == greatest {
        format!(in alloc; "{least}")
    } else {
        format!(in alloc; "{least} to {greatest}")
    }
}

/// The line of the values that occur from `least` to `greatest` times, both included: these numbers, and the line of
/// a count.
pub fn range_line<A: Allocator + Clone>(
    alloc: A,
    with_bounds: bool,
    least: u128,
    greatest: u128,
    report: Report,
) -> Result<String<A>, AllocError>
    ensures { IfOk result (λ text. string_bytes text ≡ range_line with_bounds least greatest report) }
{
    let count = count_line(alloc.clone()?, report, with_bounds)?;
    let mut line = range_text(alloc, least, greatest)?;
    line.push_str(": ")?;
    line.push_str(count.as_str())?;
    Ok(line)
}

/// The first line of a table of ranges: the names of its columns, separated by tabs.
pub fn range_tsv_head<A: Allocator + Clone>(alloc: A) -> Result<String<A>, AllocError>
    ensures { IfOk result (λ text. string_bytes text ≡ range_tsv_head) }
{
    let others = tsv_head(alloc.clone()?, false)?;
    let mut head = String::from_str(alloc, "from\tto\t")?;
    head.push_str(others.as_str())?;
    Ok(head)
}

/// The row of the values that occur from `least` to `greatest` times: these numbers, and the values of a report.
pub fn range_tsv_row<A: Allocator + Clone>(
    alloc: A,
    least: u128,
    greatest: u128,
    report: Report,
) -> Result<String<A>, AllocError>
    ensures { IfOk result (λ text. string_bytes text ≡ range_tsv_row least greatest report) }
{
    let values = tsv_row(alloc.clone()?, None, report)?;
    let mut row = format!(in alloc; "{least}\t{greatest}\t")?;
    row.push_str(values.as_str())?;
    Ok(row)
}

/// The values that occur from `least` to `greatest` times as a JSON object on a line.
pub fn range_json_line<A: Allocator>(
    alloc: A,
    least: u128,
    greatest: u128,
    report: Report,
) -> Result<String<A>, AllocError>
    ensures { IfOk result (λ text. string_bytes text ≡ range_json_line least greatest report) }
{
    let mut line = String::new(alloc);
    write!(line, "{{\"from\":{least},\"to\":{greatest},")?;
    put_fields(&mut line, report)?;
    line.push_str("}\n")?;
    Ok(line)
}
