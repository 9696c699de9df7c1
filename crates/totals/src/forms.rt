//! The lines that are written of a total. Each ends in an LF. The only error is `AllocError`.
ghost use Rattle.std.specs.Prelude.{◌≡◌, IfOk, string_bytes};
ghost use Rattle.totals.specs.Forms.{total_json_line, total_line, total_tsv_head, total_tsv_row};
ghost use Rattle.totals.specs.Forms.{lines_total_json_line, lines_total_line, lines_total_tsv_head, lines_total_tsv_row};

use crate::total::{LinesTotal, Total};
use estimates::Interval;
use std::alloc::{AllocError, Allocator};

/// The line of a total alone; of one that isn't exact, its bounds too.
pub fn total_line<A: Allocator>(
    alloc: A,
    total: Total,
    bounds: Interval,
) -> Result<String<A>, AllocError>
    ensures { IfOk result (λ text. string_bytes text ≡ total_line total bounds) }
{
    let number = total.total;
    let lower = bounds.lower;
    let upper = bounds.upper;
    if total.exact {
        format!(in alloc; "{number}\n")
    } else {
        format!(in alloc; "{number} estimated, from {lower} to {upper}\n")
    }
}

/// The first line of a table of totals: the names of its columns, separated by tabs.
pub fn total_tsv_head<A: Allocator>(alloc: A) -> Result<String<A>, AllocError>
    ensures { IfOk result (λ text. string_bytes text ≡ total_tsv_head) }
{
    String::from_str(alloc, "total\tlower\tupper\texact\tretained\ttheta\n")
}

/// The row of a total in a table: its values in the order of `total_tsv_head`, separated by tabs.
pub fn total_tsv_row<A: Allocator>(
    alloc: A,
    total: Total,
    bounds: Interval,
) -> Result<String<A>, AllocError>
    ensures { IfOk result (λ text. string_bytes text ≡ total_tsv_row total bounds) }
{
    format!(in alloc;
        "{}\t{}\t{}\t{}\t{}\t{}\n",
        total.total, bounds.lower, bounds.upper, total.exact, total.retained, total.theta
    )
}

/// A total as a JSON object on a line.
pub fn total_json_line<A: Allocator>(
    alloc: A,
    total: Total,
    bounds: Interval,
) -> Result<String<A>, AllocError>
    ensures { IfOk result (λ text. string_bytes text ≡ total_json_line total bounds) }
{
    let number = total.total;
    let lower = bounds.lower;
    let upper = bounds.upper;
    let exact = total.exact;
    let retained = total.retained;
    let theta = total.theta;
    let mut line = String::from_str(alloc, "{\"total\":")?;
    write!(line, "{number},\"lower\":{lower},\"upper\":{upper}")?;
    write!(
        line,
        ",\"exact\":{exact},\"retained\":{retained},\"theta\":{theta}"
    )?;
    line.push_str("}\n")?;
    Ok(line)
}

/// The line of the total of lines alone.
pub fn lines_total_line<A: Allocator>(alloc: A, total: LinesTotal) -> Result<String<A>, AllocError>
    ensures { IfOk result (λ text. string_bytes text ≡ lines_total_line total) }
{
    let number = total.total;
    format!(in alloc; "{number}\n")
}

/// The first line of a table of totals of lines: the names of its columns, separated by tabs.
pub fn lines_total_tsv_head<A: Allocator>(alloc: A) -> Result<String<A>, AllocError>
    ensures { IfOk result (λ text. string_bytes text ≡ lines_total_tsv_head) }
{
    String::from_str(alloc, "total\tkeys\texact\tretained\ttheta\n")
}

/// The row of the total of lines in a table: its values in the order of `lines_total_tsv_head`, separated by tabs.
pub fn lines_total_tsv_row<A: Allocator>(
    alloc: A,
    total: LinesTotal,
) -> Result<String<A>, AllocError>
    ensures { IfOk result (λ text. string_bytes text ≡ lines_total_tsv_row total) }
{
    format!(in alloc;
        "{}\t{}\t{}\t{}\t{}\n",
        total.total, total.keys, total.exact, total.retained, total.theta
    )
}

/// The total of lines as a JSON object on a line.
pub fn lines_total_json_line<A: Allocator>(
    alloc: A,
    total: LinesTotal,
) -> Result<String<A>, AllocError>
    ensures { IfOk result (λ text. string_bytes text ≡ lines_total_json_line total) }
{
    let number = total.total;
    let keys = total.keys;
    let exact = total.exact;
    let retained = total.retained;
    let theta = total.theta;
    let mut line = String::from_str(alloc, "{\"total\":")?;
    write!(line, "{number},\"keys\":{keys},\"exact\":{exact}")?;
    write!(line, ",\"retained\":{retained},\"theta\":{theta}")?;
    line.push_str("}\n")?;
    Ok(line)
}
