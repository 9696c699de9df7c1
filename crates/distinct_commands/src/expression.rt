//! The expression of `eval`, and what a command is given.
ghost use Rattle.std.specs.Prelude.{◌≡◌, ◌≢◌, ◌∷◌, [], IfOk, IfErr};
ghost use Rattle.expression_text.specs.Grammar.{SpellsNothing};
ghost use Rattle.expression_text.specs.declared.fault.Reason.TheVariants.{Memory};
ghost use Rattle.distinct_inputs.specs.Lists.{names_of};
ghost use Rattle.distinct_commands.specs.Failing.{IsOfExpression, IsOfWords, IsNameError};
ghost use Rattle.distinct_commands.specs.Operands.{files_of, IsRead};

use distinct_arguments::Fault;
use distinct_inputs::{ListError, texts_of};
use distinct_messages::Failure;
use expression_text::{Parsed, Reason, Step, SyntaxFault, parse};
use std::alloc::Global;

/// An expression that was read.
#[derive(Drop)]
pub struct Expression<'a> {
    /// The text that spells it.
    pub text: &'a str,
    /// The names of its files, each once, in the order in which the text first has them.
    pub names: Vec<String>,
    /// Its steps, in postfix order.
    pub steps: Vec<Step>,
}

/// What a command is given: for `eval` an expression, and for any other command names.
#[derive(Clone, Copy)]
pub enum Operands<'a> {
    /// The names of its files.
    Files(&'a [String]),
    /// An expression over the files that it names.
    Expression(&'a Expression<'a>),
}

impl<'a> Operands<'a> {
    /// The names of the files: of an expression each once, in the order in which its text first has them.
    pub fn names(&self) -> &'a [String]
        ensures { names_of result.now ≡ files_of self.now }
    {
        match *self {
            Operands::Files(names) => names,
            Operands::Expression(expression) => expression.names.as_slice(),
        }
    }
}

/// The failure for a text that is not an expression, for this reason.
fn syntax_failure(alloc: Global, text: &str, fault: SyntaxFault) -> Failure
    requires { fault.reason ≢ Memory → SpellsNothing text.now }
    ensures { IsOfExpression text.now result }
{
    if fault.reason == Reason::Memory {
        return Failure::Memory;
    }
    match String::from_str(alloc, text) {
        Ok(text) => Failure::NoExpression(text, fault),
        Err(_) => Failure::Memory,
    }
}

/// The failure for an expression with a name that can't be a file's.
fn name_failure(alloc: Global, text: &str, reason: ListError) -> Failure
    requires { IsNameError text.now reason }
    ensures { IsOfExpression text.now result }
{
    match reason {
        ListError::Memory => Failure::Memory,
        ListError::Name(number) => match String::from_str(alloc, text) {
            Ok(text) => Failure::NoName(text, number),
            Err(_) => Failure::Memory,
        },
    }
}

/// The expression that a text spells. It fails with `NoExpression` if the text spells none, with `NoName` if one of
/// its names is not UTF-8 text, which no name of a text is, or with `Memory`.
pub fn expression_in(alloc: Global, text: &str) -> Result<Expression<'_>, Failure>
    ensures read { IfOk result IsRead }
    ensures text { IfOk result (λ e. e.text.now ≡ text.now) }
    ensures failed { IfErr result (IsOfExpression text.now) }
{
    let parsed = match parse(alloc, text.as_bytes()) {
        Ok(parsed) => parsed,
        Err(fault) => return Err(syntax_failure(alloc, text, fault)),
    };
    let Parsed { names, steps } = parsed;
    match texts_of(alloc, names.as_slice()) {
        Ok(names) => Ok(Expression { text, names, steps }),
        Err(reason) => Err(name_failure(alloc, text, reason)),
    }
}

/// The expression that the only one of some words spells. It fails with `NotOneExpression` if there is not one word,
/// or as `expression_in` does.
pub fn only_expression(alloc: Global, words: &[String]) -> Result<Expression<'_>, Failure>
    ensures read { IfOk result IsRead }
    ensures word { IfOk result (λ e. names_of words.now ≡ e.text.now ∷ []) }
    ensures failed { IfErr result (IsOfWords (names_of words.now)) }
{
    let [word] = words else {
        return Err(Failure::Arguments(Fault::NotOneExpression));
    };
    expression_in(alloc, word.as_str())
}
