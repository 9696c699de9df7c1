//! What one line says.
ghost use Rattle.std.specs.Prelude.{◌≡◌, ◌∷◌, ◌≤◌, Some, IfSome};
ghost use Rattle.plan_text.specs.Words.{words, more_words, number_of_word, small, start_of, BeginsWithNumber};
ghost use Rattle.plan_text.specs.Reading.{says};
ghost use Rattle.plan_text.specs.declared.line.Line.TheVariants as line;
ghost use Rattle.plan_text.specs.Lines.{form_of, image_order, said, said_one, said_two, said_three, said_four};

use crate::command::{Family, Form};
use crate::text::cut;
use core_laws::MAX_THETA;

/// A line that the text may have.
#[derive(Clone, Copy)]
pub enum Line {
    /// The first line: the family of the plan after it, and the form of its answer.
    Command(Family, Form),
    /// A node of a plan, before its steps or its parts.
    Node(NodeLine),
    /// A step of a leaf.
    Step(StepLine),
    /// Lowers a union's nominal entries to 2 to this power.
    Lower(u8),
}

/// A line that begins a node. Each number and count is as the line spells it, even if no sketch may have it.
#[derive(Clone, Copy)]
pub enum NodeLine {
    /// A leaf, with `count` steps on the lines after it.
    Leaf { lg_k: u8, start: u64, count: u32 },
    /// A union, with `count` parts on the lines after it: plans, and lines that lower its nominal entries.
    Union { lg_k: u8, start: u64, count: u32 },
    /// An intersection, with `count` plans on the lines after it, at least one.
    Meet { count: u32 },
    /// A difference, with two plans on the lines after it.
    Minus,
    /// Writes the plan on the lines after it as an image, ordered or not, and reads it back.
    Via { ordered: bool },
}

/// A line that is a step of a leaf.
#[derive(Clone, Copy)]
pub enum StepLine {
    /// An update with this hash, and the number after the hash if there is one.
    Add(u64, Option<u64>),
    Trim,
    Reset,
}

/// The most digits of a number.
const MAX_DIGITS: usize = 20;

/// Any 19 digits spell a number below 2^64.
const SMALL_DIGITS: usize = 19;

/// The first word, and the text after the space that ends it.
fn word(line: &[u8]) -> (&[u8], Option<&[u8]>)
    ensures { words line.now ≡ result.0.now ∷ more_words result.1 }
{
    match cut(line, b' ') {
        None => (line, None),
        Some((front, rest)) => (front, Some(rest)),
    }
}

/// The number that a word spells: 1 to 20 digits of a value below 2^64.
fn number(word: &[u8]) -> Option<u64>
    ensures { result ≡ number_of_word word.now }
{
    if word.is_empty() || word.len() > MAX_DIGITS {
        return None;
    }
    let mut value = 0u64;
    for byte in word {
        if !byte.is_ascii_digit() {
            return None;
        }
        value = value.checked_mul(10)?.checked_add(u64::from(*byte - b'0'))?;
    }
    Some(value)
}

/// The number that the digits at the front of a text spell, and the text after them. `None` if there is no digit, if
/// there are more than 19, or if the text ends with them; the text may still begin with a number then.
#[inline(always)]
fn number_before(text: &[u8]) -> Option<(u64, &[u8])>
    ensures { IfSome result (λ x. BeginsWithNumber text.now x.0 x.1.now) }
{
    let mut value = 0u64;
    for (i, byte) in text.iter().enumerate() {
        if !byte.is_ascii_digit() {
            if i == 0 {
                return None;
            }
            let (_, rest) = text.split_at(i);
            return Some((value, rest));
        }
        if i >= SMALL_DIGITS {
            return None;
        }
        value = value * 10 + (*byte - b'0') as u64;
    }
    None
}

/// The update that the first line says, and the text after that line. If it returns `None`, the line may still be an
/// update, with a number of more than 19 digits or on a last line without an LF.
#[inline(always)]
pub fn plain_add(text: &[u8]) -> Option<(StepLine, &[u8])>
    ensures { IfSome result (λ x. says text.now ≡ Some (line.Step x.0) ∷ says x.1.now) }
{
    let [b'a', b'd', b'd', b' ', numbers @ ..] = text else {
        return None;
    };
    let (hash, behind) = number_before(numbers)?;
    match behind {
        [b'\n', rest @ ..] => Some((StepLine::Add(hash, None), rest)),
        [b' ', second @ ..] => {
            let (value, end) = number_before(second)?;
            match end {
                [b'\n', rest @ ..] => Some((StepLine::Add(hash, Some(value)), rest)),
                _ => None,
            }
        }
        _ => None,
    }
}

/// The starting theta that a word spells: `max`, or a number.
fn start_of(word: &[u8]) -> Option<u64>
    ensures { result ≡ start_of word.now }
{
    if word == b"max".as_slice() {
        return Some(MAX_THETA);
    }
    number(word)
}

/// The form of the answer that a word names: `show` or `image`.
fn form_of(word: &[u8]) -> Option<Form>
    ensures { result ≡ form_of word.now }
{
    if word == b"show".as_slice() {
        return Some(Form::Show);
    }
    if word == b"image".as_slice() {
        return Some(Form::Image);
    }
    None
}

/// Whether an image is to be ordered: `ordered` or `unordered`.
fn order_of(word: &[u8]) -> Option<bool>
    ensures { result ≡ image_order word.now }
{
    if word == b"ordered".as_slice() {
        return Some(true);
    }
    if word == b"unordered".as_slice() {
        return Some(false);
    }
    None
}

/// What a line of one word says.
fn one_word(first: &[u8]) -> Option<Line>
    ensures { result ≡ said_one first.now }
{
    if first == b"trim".as_slice() {
        return Some(Line::Step(StepLine::Trim));
    }
    if first == b"reset".as_slice() {
        return Some(Line::Step(StepLine::Reset));
    }
    if first == b"minus".as_slice() {
        return Some(Line::Node(NodeLine::Minus));
    }
    None
}

/// What a line of two words says.
fn two_words(first: &[u8], second: &[u8]) -> Option<Line>
    ensures { result ≡ said_two first.now second.now }
{
    if first == b"theta".as_slice() {
        let form = form_of(second)?;
        return Some(Line::Command(Family::Theta, form));
    }
    if first == b"tuple".as_slice() {
        let asked = form_of(second)?;
        return Some(Line::Command(Family::Tuple, asked));
    }
    if first == b"via".as_slice() {
        let ordered = order_of(second)?;
        return Some(Line::Node(NodeLine::Via { ordered }));
    }
    if first == b"add".as_slice() {
        let hash = number(second)?;
        return Some(Line::Step(StepLine::Add(hash, None)));
    }
    if first == b"meet".as_slice() {
        let count = u32::try_from(number(second)?).ok()?;
        if count == 0 {
            return None;
        }
        return Some(Line::Node(NodeLine::Meet { count }));
    }
    if first == b"lower".as_slice() {
        let lg_k = u8::try_from(number(second)?).ok()?;
        return Some(Line::Lower(lg_k));
    }
    None
}

/// What a line of three words says.
fn three_words(first: &[u8], second: &[u8], third: &[u8]) -> Option<Line>
    ensures { result ≡ said_three first.now second.now third.now }
{
    if first == b"add".as_slice() {
        let hash = number(second)?;
        let value = number(third)?;
        return Some(Line::Step(StepLine::Add(hash, Some(value))));
    }
    None
}

/// What a line of four words says.
fn four_words(first: &[u8], second: &[u8], third: &[u8], fourth: &[u8]) -> Option<Line>
    ensures { result ≡ said_four first.now second.now third.now fourth.now }
{
    let lg_k = u8::try_from(number(second)?).ok()?;
    let start = start_of(third)?;
    let count = u32::try_from(number(fourth)?).ok()?;
    if first == b"leaf".as_slice() {
        return Some(Line::Node(NodeLine::Leaf { lg_k, start, count }));
    }
    if first == b"union".as_slice() {
        return Some(Line::Node(NodeLine::Union { lg_k, start, count }));
    }
    None
}

/// What a line says; `None` if the text may not have that line.
pub fn line_of(line: &[u8]) -> Option<Line>
    ensures { result ≡ said (words line.now) }
{
    let (first, rest) = word(line);
    let Some(rest) = rest else {
        return one_word(first);
    };
    let (second, rest) = word(rest);
    let Some(rest) = rest else {
        return two_words(first, second);
    };
    let (third, rest) = word(rest);
    let Some(rest) = rest else {
        return three_words(first, second, third);
    };
    let (fourth, rest) = word(rest);
    if rest.is_some() {
        return None;
    }
    four_words(first, second, third, fourth)
}
