//! The lines that are written of a total under a name. Each ends in an LF. The only error is `AllocError`.
ghost use Rattle.std.specs.Prelude.{◌≡◌, IfOk, string_bytes};
ghost use Rattle.keys_reports.specs.Forms.{named_total_json_line, named_total_line, named_total_tsv_head, named_total_tsv_row};

use crate::forms::{object_head, row_name};
use std::alloc::{AllocError, Allocator};

/// The line of a total: the name, which may have any bytes and is as it is, a tab, and the number.
pub fn named_total_line<A: Allocator + Clone>(
    alloc: A,
    name: &[u8],
    total: u128,
) -> Result<Vec<u8, A>, AllocError>
    ensures { IfOk result (λ text. text.items ≡ named_total_line name.now total) }
{
    let number = format!(in alloc.clone()?; "\t{total}\n")?;
    let mut line = Vec::from_slice(alloc, name)?;
    line.extend_from_slice(number.as_bytes())?;
    Ok(line)
}

/// The first line of a table of totals under names: the names of its columns, separated by a tab.
pub fn named_total_tsv_head<A: Allocator>(alloc: A) -> Result<String<A>, AllocError>
    ensures { IfOk result (λ text. string_bytes text ≡ named_total_tsv_head) }
{
    String::from_str(alloc, "name\ttotal\n")
}

/// The row of a total in a table: the name, which may have any bytes (`escaped_bytes`), a tab, and the number.
pub fn named_total_tsv_row<A: Allocator>(
    alloc: A,
    name: &[u8],
    total: u128,
) -> Result<String<A>, AllocError>
    ensures { IfOk result (λ text. string_bytes text ≡ named_total_tsv_row name.now total) }
{
    let mut row = row_name(alloc, Some(name))?;
    write!(row, "{total}\n")?;
    Ok(row)
}

/// A total as a JSON object on a line, with the name as its first field.
pub fn named_total_json_line<A: Allocator>(
    alloc: A,
    name: &str,
    total: u128,
) -> Result<String<A>, AllocError>
    ensures { IfOk result (λ text. string_bytes text ≡ named_total_json_line name.now total) }
{
    let mut line = object_head(alloc, Some(name))?;
    write!(line, "\"total\":{total}")?;
    line.push_str("}\n")?;
    Ok(line)
}
