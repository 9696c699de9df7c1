//! Numbers as people read them. The only error is `AllocError`.
ghost use Rattle.std.specs.Prelude.{◌≡◌, ◌<◌, ◌≤◌, ◌++◌, IfOk, OnOk, string_bytes};
ghost use Rattle.keys_reports.specs.Human.{grouped, human_count, human_line, in_groups, lowered, nearest_multiple};
ghost use Rattle.keys_reports.specs.Human.{raised, three_digits, unit_from, unit_of};
ghost use Rattle.keys_reports.specs.Forms.{named_line};

use crate::forms::put_name_behind;
use crate::report::Report;
use std::alloc::{AllocError, Allocator};

/// How often a number of 128 bits can be divided by 1000 before it is below 1000.
const GROUPS: u32 = 12;

/// How many powers of ten above 1 are at most a thousandth of a number of 128 bits.
const POWERS: u32 = 35;

/// Appends the three digits of a number below 1000.
fn put_three<A: Allocator>(line: &mut String<A>, number: u128) -> Result<(), AllocError>
    requires { number < 1000 }
    ensures { OnOk result (string_bytes line.new ≡ string_bytes line.old ++ three_digits number) }
{
    let hundreds = (b'0' + (number / 100) as u8) as char;
    let tens = (b'0' + (number / 10 % 10) as u8) as char;
    let ones = (b'0' + (number % 10) as u8) as char;
    line.push(hundreds)?;
    line.push(tens)?;
    line.push(ones)
}

/// Appends a number with a comma before each of its last groups of three digits, at most this many.
fn put_grouped<A: Allocator>(
    line: &mut String<A>,
    number: u128,
    groups: u32,
) -> Result<(), AllocError>
    ensures { OnOk result (string_bytes line.new ≡ string_bytes line.old ++ grouped groups number) }
{
    if groups == 0 {
        return write!(line, "{number}");
    }
    if number < 1000 {
        return write!(line, "{number}");
    }
    put_grouped(line, number / 1000, groups - 1)?;
    line.push_str(",")?;
    put_three(line, number % 1000)?;
    Ok(())
}

/// Appends a number in groups of three digits, with commas between them.
fn put_number<A: Allocator>(line: &mut String<A>, number: u128) -> Result<(), AllocError>
    ensures { OnOk result (string_bytes line.new ≡ string_bytes line.old ++ in_groups number) }
{
    put_grouped(line, number, GROUPS)
}

/// Of this unit and at most this many greater powers of ten, the greatest that is at most a hundredth of a width.
fn unit_from(more: u32, unit: u128, width: u128) -> u128
    requires { 0 < unit }
    ensures value { result ≡ unit_from more unit width }
    ensures not_zero { 0 < result }
{
    if more == 0 {
        return unit;
    }
    if width / 1000 < unit {
        return unit;
    }
    unit_from(more - 1, 10 * unit, width)
}

/// The unit to which an estimate is given whose bounds are as far apart as this width: at most a hundredth of it, or 1.
fn unit_of(width: u128) -> u128
    ensures value { result ≡ unit_of width }
    ensures not_zero { 0 < result }
{
    unit_from(POWERS, 1, width)
}

/// The greatest multiple of a unit that is at most a number.
fn lowered(unit: u128, number: u128) -> u128
    requires { 0 < unit }
    ensures value { result ≡ lowered unit number }
    ensures below { result ≤ number }
{
    number / unit * unit
}

/// The least multiple of a unit that is at least a number; the number itself if that has more than 128 bits.
fn raised(unit: u128, number: u128) -> u128
    requires { 0 < unit }
    ensures { result ≡ raised unit number }
{
    let low = lowered(unit, number);
    if low == number {
        return number;
    }
    match low.checked_add(unit) {
        Some(high) => high,
        None => number,
    }
}

/// The nearest multiple of a unit; of two equally near the greater.
fn nearest_multiple(unit: u128, number: u128) -> u128
    requires { 0 < unit }
    ensures { result ≡ nearest_multiple unit number }
{
    let low = lowered(unit, number);
    let above = number - low;
    if above < unit.saturating_sub(above) {
        low
    } else {
        raised(unit, number)
    }
}

/// Appends the estimate of a report for people: an exact count alone, else about how many, with bounds. They are given
/// to a unit that is at most a hundredth of their distance, and rounded outwards.
fn put_count<A: Allocator>(line: &mut String<A>, report: Report) -> Result<(), AllocError>
    ensures { OnOk result (string_bytes line.new ≡ string_bytes line.old ++ human_count report) }
{
    if report.exact {
        return put_number(line, report.estimate);
    }
    let lower = report.interval.lower;
    let upper = report.interval.upper;
    let unit = unit_of(upper.saturating_sub(lower));
    line.push_str("about ")?;
    put_number(line, nearest_multiple(unit, report.estimate))?;
    line.push_str(" (")?;
    put_number(line, lowered(unit, lower))?;
    line.push_str(" to ")?;
    put_number(line, raised(unit, upper))?;
    line.push_str(")")?;
    Ok(())
}

/// The line of a count for people, such as `about 5,012,000 (4,900,000 to 5,126,000)`, or `300` if it is exact. The
/// bounds are those of the report, rounded outwards to the unit of the estimate.
pub fn human_line<A: Allocator>(alloc: A, report: Report) -> Result<String<A>, AllocError>
    ensures { IfOk result (λ text. string_bytes text ≡ human_line report) }
{
    let mut line = String::new(alloc);
    put_count(&mut line, report)?;
    line.push_str("\n")?;
    Ok(line)
}

/// The line of a count for people with a name behind it: a tab, and the name, whose control characters are escaped.
pub fn named_human_line<A: Allocator + Clone>(
    alloc: A,
    name: &str,
    report: Report,
) -> Result<String<A>, AllocError>
    ensures { IfOk result (λ text. string_bytes text ≡ named_line (human_count report) name.now) }
{
    let mut line = String::new(alloc.clone()?);
    put_count(&mut line, report)?;
    put_name_behind(alloc, &mut line, name)?;
    Ok(line)
}
