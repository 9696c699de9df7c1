//! The text that answers an input.
ghost use Rattle.std.specs.Prelude.{◌≡◌, ◌++◌, Some, OnOk, IfOk, string_bytes};
ghost use Rattle.plan_text.specs.declared.command.Command.TheVariants.{Theta, Tuple};
ghost use Rattle.core_state.specs.View.{shows, sequence};
ghost use Rattle.plan_runs.specs.Answer.{Texts, Answers, AnswersCommand, theta_texts, tuple_texts, shown_head};
ghost use Rattle.plan_runs.specs.Answer.{show_lines, hex_byte, hex_line, sketch_text, fault_line, refusal_line};

use core_operators::EntrySketch;
use core_slots::{SlotEntry, ThetaEntry, TupleEntry};
use core_state::SketchView;
use plan_evaluation::{evaluate_sums, evaluate_theta};
use plan_text::{Command, Fault, Form, Plan, read_plan};
use sketch_base::{DEFAULT_UPDATE_SEED, Error, ErrorKind};
use std::alloc::{AllocError, Allocator};
use theta_sketches::CompactThetaSketch;
use tuple_sketches::CompactTupleSketch;

/// An entry that `show` writes, on a line of its own.
trait ShownEntry: SlotEntry {
    ghost texts: { Texts Self };

    /// Appends the line.
    fn put_line<A: Allocator>(&self, text: &mut String<A>) -> Result<(), AllocError>
        ensures { OnOk result (string_bytes text.new ≡ string_bytes text.old ++ texts.line self.now) };
}

/// A hash.
impl ShownEntry for ThetaEntry {
    ghost texts = { theta_texts };

    fn put_line<A: Allocator>(&self, text: &mut String<A>) -> Result<(), AllocError> {
        let number = self.hash();
        writeln!(text, "{number}")
    }
}

/// A hash and its summary.
impl ShownEntry for TupleEntry<u64> {
    ghost texts = { tuple_texts };

    fn put_line<A: Allocator>(&self, text: &mut String<A>) -> Result<(), AllocError> {
        let hash = self.hash();
        let summary = *self.summary();
        writeln!(text, "{hash} {summary}")
    }
}

/// Appends the lines before the entries.
fn put_head<A: Allocator>(
    text: &mut String<A>,
    empty: bool,
    theta: u64,
    count: usize,
) -> Result<(), AllocError>
    ensures { OnOk result (string_bytes text.new ≡ string_bytes text.old ++ shown_head empty theta count) }
{
    let answer = if empty { "yes" } else { "no" };
    writeln!(text, "empty {answer}")?;
    writeln!(text, "theta {theta}")?;
    writeln!(text, "count {count}")
}

/// The text of `show` for a sketch: whether it is empty, its theta, the number of its retained entries, and these in
/// its order.
fn show_text<'a, A: Allocator, E: ShownEntry + 'a, B: Allocator>(
    alloc: A,
    sketch: SketchView<'a, E, B>,
) -> Result<String<A>, AllocError>
    ensures { IfOk result (λ text.
        string_bytes text
        ≡ let shown = shows E.key sketch.entry in show_lines E.texts shown.empty shown.theta (sequence sketch.entry)) }
{
    let mut text = String::new(alloc);
    put_head(
        &mut text,
        sketch.is_empty(),
        sketch.theta64(),
        sketch.num_retained(),
    )?;
    for entry in sketch.entries() {
        entry.put_line(&mut text)?;
    }
    Ok(text)
}

/// The line of a fault of the text.
fn fault_text<A: Allocator>(alloc: A, line: u64, kind: &str) -> Result<String<A>, AllocError>
    ensures { IfOk result (λ text. string_bytes text ≡ fault_line line kind.now) }
{
    let mut text = String::new(alloc);
    writeln!(text, "error {line} {kind}")?;
    Ok(text)
}

/// The status and the text that answer a plan whose evaluation was refused.
fn refused_text<A: Allocator + Clone>(
    alloc: &A,
    refused: Error,
) -> Result<(u8, String<A>), AllocError>
    ensures { IfOk result (λ x. (x.0 ≡ 1) × (refusal_line refused ≡ Some (string_bytes x.1))) }
{
    let line = match refused.kind() {
        ErrorKind::InvalidArgument => "error argument\n",
        ErrorKind::Policy => "error policy\n",
        _ => return Err(AllocError),
    };
    let text = String::from_str(alloc.clone()?, line)?;
    Ok((1, text))
}

/// Appends a byte as two digits of lower-case hexadecimal.
fn put_byte<A: Allocator>(text: &mut String<A>, byte: u8) -> Result<(), AllocError>
    ensures { OnOk result (string_bytes text.new ≡ string_bytes text.old ++ hex_byte byte) }
{
    write!(text, "{byte:02x}")
}

/// The line of bytes in hexadecimal.
fn hex_text<A: Allocator>(alloc: A, bytes: &[u8]) -> Result<String<A>, AllocError>
    ensures { IfOk result (λ text. string_bytes text ≡ hex_line bytes.now) }
{
    let mut text = String::new(alloc);
    for byte in bytes {
        put_byte(&mut text, *byte)?;
    }
    text.push('\n')?;
    Ok(text)
}

/// The text of a theta sketch in this form.
fn sketch_text<A: Allocator, B: Allocator + Clone>(
    alloc: A,
    form: Form,
    sketch: &CompactThetaSketch<B>,
) -> Result<String<A>, AllocError>
    ensures { IfOk result (λ text. string_bytes text ≡ sketch_text theta_texts form sketch.now) }
{
    match form {
        Form::Show => show_text(alloc, sketch.as_view()),
        Form::Image => {
            let Ok(image) = sketch.serialize() else {
                return Err(AllocError);
            };
            hex_text(alloc, image.as_slice())
        }
    }
}

/// The text of a tuple sketch in this form.
fn tuple_text<A: Allocator, B: Allocator + Clone>(
    alloc: A,
    form: Form,
    sketch: &CompactTupleSketch<u64, B>,
) -> Result<String<A>, AllocError>
    ensures { IfOk result (λ text. string_bytes text ≡ sketch_text tuple_texts form sketch.now) }
{
    match form {
        Form::Show => show_text(alloc, sketch.as_view()),
        Form::Image => {
            let Ok(bytes) = sketch.serialize() else {
                return Err(AllocError);
            };
            hex_text(alloc, bytes.as_slice())
        }
    }
}

/// The status and the text that answer a plan of theta sketches in a form.
fn theta_answer<A: Allocator + Clone>(
    alloc: &A,
    form: Form,
    plan: &Plan<(), A>,
) -> Result<(u8, String<A>), AllocError>
    ensures { IfOk result (λ x. AnswersCommand (Theta form plan.now) x.0 (string_bytes x.1)) }
{
    match evaluate_theta(alloc.clone()?, plan, DEFAULT_UPDATE_SEED) {
        Ok(sketch) => {
            let text = sketch_text(alloc.clone()?, form, &sketch)?;
            Ok((0, text))
        }
        Err(refused) => refused_text(alloc, refused),
    }
}

/// The status and the text that answer a plan of tuple sketches in a form: the values of a key add up, and so do its
/// summaries.
fn tuple_answer<A: Allocator + Clone>(
    alloc: &A,
    form: Form,
    plan: &Plan<u64, A>,
) -> Result<(u8, String<A>), AllocError>
    ensures { IfOk result (λ x. AnswersCommand (Tuple form plan.now) x.0 (string_bytes x.1)) }
{
    match evaluate_sums(alloc.clone()?, plan, DEFAULT_UPDATE_SEED) {
        Ok(sketch) => {
            let text = tuple_text(alloc.clone()?, form, &sketch)?;
            Ok((0, text))
        }
        Err(refused) => refused_text(alloc, refused),
    }
}

/// The status and the text that answer a command.
fn command_answer<A: Allocator + Clone>(
    alloc: &A,
    command: &Command<A>,
) -> Result<(u8, String<A>), AllocError>
    ensures { IfOk result (λ x. AnswersCommand command.now x.0 (string_bytes x.1)) }
{
    match command {
        Command::Theta(form, plan) => theta_answer(alloc, *form, plan),
        Command::Tuple(form, plan) => tuple_answer(alloc, *form, plan),
    }
}

/// The status and the text that answer an input: 0 and the answer to its command, or 1 and a fault.
pub fn answer<A: Allocator + Clone>(alloc: &A, input: &[u8]) -> Result<(u8, String<A>), AllocError>
    ensures { IfOk result (λ x. Answers A input.now x.0 (string_bytes x.1)) }
{
    match read_plan(alloc.clone()?, input) {
        Ok(command) => command_answer(alloc, &command),
        Err(Fault::Memory) => Err(AllocError),
        Err(Fault::Syntax(line)) => Ok((1, fault_text(alloc.clone()?, line, "syntax")?)),
        Err(Fault::Limit(line)) => Ok((1, fault_text(alloc.clone()?, line, "limit")?)),
    }
}
