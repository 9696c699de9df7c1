//! Reads an expression, token by token.
ghost use Rattle.std.specs.Prelude.{◌≡◌, ◌≢◌, ◌++◌, ◌∷◌, ◌<◌, ◌≤◌, ℕ, [], List, map, false, length, IfOk, IfErr};
ghost use Rattle.std.specs.Prelude.{IfSome, IfNone, OnOk, MatchOption};
ghost use Rattle.expression_text.specs.Grammar.{strength, IsExpressionText, SpellsNothing};
ghost use Rattle.expression_text.specs.Tokens.{Lexeme, name, sign, opening, closing, lexeme_of, IsText, IsToken};
ghost use Rattle.expression_text.specs.Tokens.{NoBlankFirst};
ghost use Rattle.expression_text.specs.Reading.{HasName, has_name, IsIndexed, HasOperand, IsSettled, LacksSign};
ghost use Rattle.expression_text.specs.Reading.{HasTokens, CanFollow, NothingFollows, CanEnd};
ghost use Rattle.expression_text.specs.declared.parsing.Pending.TheVariants.{Sign};
ghost use Rattle.expression_text.specs.declared.fault.Reason.TheVariants.{Memory};

use crate::fault::{Reason, SyntaxFault};
use crate::operator::{Operator, Step};
use crate::tokens::{Token, first_token, skip_blanks};
use std::alloc::{Allocator, Global};

/// The most levels of parentheses.
pub const MAX_LEVELS: usize = 64;

/// An expression that was read.
#[derive(Drop)]
pub struct Parsed<A: Allocator = Global> {
    /// The names, each once, in the order in which the text first has them.
    pub names: Vec<Vec<u8, A>, A>,
    /// The steps in postfix order. Each index is below the number of names.
    pub steps: Vec<Step, A>,
}

/// What waits for its right operand, or for its closing parenthesis.
#[derive(Clone, Copy)]
enum Pending {
    /// An opening parenthesis.
    Group,
    /// An operator whose left operand is complete.
    Sign(Operator),
}

/// The tokens that were read so far.
#[derive(Drop)]
struct Reading<A: Allocator> {
    pending: Vec<Pending, A>,
    names: Vec<Vec<u8, A>, A>,
    steps: Vec<Step, A>,
    levels: usize,
    after_operand: bool,
}

/// How tightly an operator binds.
fn strength(operator: Operator) -> u8
    ensures { result ≡ strength operator }
{
    match operator {
        Operator::Union => 1,
        Operator::Intersection => 2,
        Operator::Difference => 1,
    }
}

/// Removes the last pending operator, if the last one pending is an operator that binds at least this tightly.
fn take_sign<A: Allocator>(pending: &mut Vec<Pending, A>, least: u8) -> Option<Operator>
    ensures { MatchOption result (
        (pending.new.items ≡ pending.old.items) × LacksSign least pending.old.items) (
        λ op. (pending.old.items ≡ pending.new.items ++ Sign op ∷ []) × (least ≤ strength op)) }
{
    let Some((last, _)) = pending.split_last() else {
        return None;
    };
    let Pending::Sign(operator) = *last else {
        return None;
    };
    if strength(operator) < least {
        return None;
    }
    let _ = pending.pop();
    Some(operator)
}

/// Combines the last operand with those of the pending operators that bind at least this tightly.
fn settle<A: Allocator>(
    pending: &mut Vec<Pending, A>,
    steps: &mut Vec<Step, A>,
    least: u8,
) -> Result<(), Reason>
    ensures settled { (tokens : List Lexeme) (names : List (List ℕ)) (levels : ℕ)
        → HasOperand least tokens names pending.old.items steps.old.items levels
        → OnOk result (IsSettled least tokens names pending.new.items steps.new.items levels) }
    ensures memory { IfErr result (λ reason. reason ≡ Memory) }
{
    while let Some(operator) = take_sign(pending, least) {
        steps.push(Step::Combine(operator))?;
    }
    Ok(())
}

/// The index of a name among names.
fn place_of<A: Allocator>(names: &[Vec<u8, A>], word: &[u8]) -> Option<usize>
    ensures found { IfSome result (λ i. HasName (map (λ v. v.items) names.now) word.now i) }
    ensures none { IfNone result (has_name (map (λ v. v.items) names.now) word.now ≡ false) }
{
    for (i, name) in names.iter().enumerate() {
        if name.as_slice() == word {
            return Some(i);
        }
    }
    None
}

/// The index of a name, which is appended to the names if it isn't among them.
fn index_of<A: Allocator + Clone + Drop>(
    alloc: A,
    names: &mut Vec<Vec<u8, A>, A>,
    word: &[u8],
) -> Result<usize, Reason>
    ensures index { IfOk result
        (IsIndexed (map (λ v. v.items) names.old.items) (map (λ v. v.items) names.new.items) word.now) }
    ensures memory { IfErr result (λ reason. reason ≡ Memory) }
{
    if let Some(index) = place_of(names, word) {
        return Ok(index);
    }
    let index = names.len();
    let mut name = Vec::new(alloc);
    name.extend_from_slice(word)?;
    names.push(name)?;
    Ok(index)
}

impl<A: Allocator + Clone + Drop> Reading<A> {
    /// Reads a name.
    fn put_name(&mut self, alloc: A, word: &[u8]) -> Result<(), Reason>
        ensures reads { (tokens : List Lexeme)
            → HasTokens tokens self.old
            → OnOk result (HasTokens (tokens ++ name word.now ∷ []) self.new) }
        ensures refused { IfErr result (λ reason.
            reason ≢ Memory → CanFollow self.old.levels self.old.after_operand (name word.now) → ⊥) }
    {
        if self.after_operand {
            return Err(Reason::MissingOperator);
        }
        let index = index_of(alloc, &mut self.names, word)?;
        self.steps.push(Step::Operand(index))?;
        self.after_operand = true;
        Ok(())
    }

    /// Reads an operator.
    fn put_sign(&mut self, operator: Operator) -> Result<(), Reason>
        ensures reads { (tokens : List Lexeme)
            → HasTokens tokens self.old
            → OnOk result (HasTokens (tokens ++ sign operator ∷ []) self.new) }
        ensures refused { IfErr result (λ reason.
            reason ≢ Memory → CanFollow self.old.levels self.old.after_operand (sign operator) → ⊥) }
    {
        if !self.after_operand {
            return Err(Reason::MissingOperand);
        }
        settle(&mut self.pending, &mut self.steps, strength(operator))?;
        self.pending.push(Pending::Sign(operator))?;
        self.after_operand = false;
        Ok(())
    }

    /// Reads an opening parenthesis.
    fn open(&mut self) -> Result<(), Reason>
        ensures reads { (tokens : List Lexeme)
            → HasTokens tokens self.old
            → OnOk result (HasTokens (tokens ++ opening ∷ []) self.new) }
        ensures refused { IfErr result (λ reason.
            reason ≢ Memory → CanFollow self.old.levels self.old.after_operand opening → ⊥) }
    {
        if self.after_operand {
            return Err(Reason::MissingOperator);
        }
        if self.levels >= MAX_LEVELS {
            return Err(Reason::TooDeep);
        }
        self.pending.push(Pending::Group)?;
        self.levels += 1;
        Ok(())
    }

    /// Reads a closing parenthesis.
    fn close(&mut self) -> Result<(), Reason>
        ensures reads { (tokens : List Lexeme)
            → HasTokens tokens self.old
            → OnOk result (HasTokens (tokens ++ closing ∷ []) self.new) }
        ensures refused { (tokens : List Lexeme) → HasTokens tokens self.old
            → IfErr result (λ reason. reason ≢ Memory → CanFollow self.old.levels self.old.after_operand closing → ⊥) }
    {
        if self.levels == 0 {
            return Err(Reason::UnexpectedClosing);
        }
        if !self.after_operand {
            return Err(Reason::MissingOperand);
        }
        settle(&mut self.pending, &mut self.steps, 0)?;
        let Some(_) = self.pending.pop() else {
            return Err(Reason::UnexpectedClosing);
        };
        self.levels -= 1;
        Ok(())
    }

    /// Reads a token.
    fn put(&mut self, alloc: A, token: Token<'_>) -> Result<(), Reason>
        ensures reads { (tokens : List Lexeme)
            → HasTokens tokens self.old
            → OnOk result (HasTokens (tokens ++ lexeme_of token.entry ∷ []) self.new) }
        ensures refused { (tokens : List Lexeme) → HasTokens tokens self.old
            → IfErr result (λ reason.
            reason ≢ Memory → CanFollow self.old.levels self.old.after_operand (lexeme_of token.entry) → ⊥) }
    {
        match token {
            Token::Name(word) => self.put_name(alloc, word),
            Token::Sign(operator) => self.put_sign(operator),
            Token::Opening => self.open(),
            Token::Closing => self.close(),
        }
    }

    /// Reads the token at the front of a text, which doesn't begin with a blank. Returns the text after it, and
    /// `None` if the text is empty.
    fn put_first<'a>(&mut self, alloc: &A, text: &'a [u8]) -> Result<Option<&'a [u8]>, Reason>
        ensures token { (tokens : List Lexeme)
            → HasTokens tokens self.old
            → IfOk result (λ o. MatchOption o ((text.now ≡ []) × HasTokens tokens self.new) (λ rest.
            (t : Lexeme) × IsToken t text.now rest.now ×
            HasTokens (tokens ++ t ∷ []) self.new)) }
        ensures shorter { IfOk result (λ o. IfSome o (λ rest. length rest.now < length text.now)) }
        ensures some { IfErr result (λ reason. reason ≢ Memory → text.now ≢ []) }
        ensures refused { (tokens : List Lexeme) → HasTokens tokens self.old → NoBlankFirst text.now
            → IfErr result (λ reason.
            reason ≢ Memory → NothingFollows self.old.levels self.old.after_operand text.now) }
    {
        match first_token(text)? {
            None => Ok(None),
            Some((token, rest)) => {
                self.put(alloc.clone()?, token)?;
                Ok(Some(rest))
            }
        }
    }

    /// Reads all tokens of a text.
    fn put_all(&mut self, alloc: &A, text: &[u8]) -> Result<(), SyntaxFault>
        ensures tokens { HasTokens [] self.old
            → OnOk result ((tokens : List Lexeme) × IsText tokens text.now × HasTokens tokens self.new) }
        ensures fault { IfErr result (λ f. f.offset ≤ length text.now) }
        ensures unspelled { HasTokens [] self.old → IfErr result (λ f. f.reason ≢ Memory → SpellsNothing text.now) }
    {
        let mut rest = skip_blanks(text);
        loop {
            let offset = text.len() - rest.len();
            match self.put_first(alloc, rest) {
                Ok(Some(behind)) => rest = skip_blanks(behind),
                Ok(None) => return Ok(()),
                Err(reason) => return Err(SyntaxFault { offset, reason }),
            }
        }
    }

    /// Ends the expression.
    fn finish(mut self) -> Result<Parsed<A>, Reason>
        ensures spelled { (tokens : List Lexeme) (text : List ℕ) → IsText tokens text → HasTokens tokens self
            → IfOk result (λ x. IsExpressionText text (map (λ v. v.items) x.names.items) x.steps.items) }
        ensures refused { (tokens : List Lexeme) → HasTokens tokens self
            → IfErr result (λ reason. reason ≢ Memory → CanEnd self.levels self.after_operand → ⊥) }
    {
        if !self.after_operand {
            return Err(Reason::MissingOperand);
        }
        settle(&mut self.pending, &mut self.steps, 0)?;
        if !self.pending.as_slice().is_empty() {
            return Err(Reason::MissingClosing);
        }
        let Reading { names, steps, .. } = self;
        Ok(Parsed { names, steps })
    }
}

/// The state before the first token.
fn new_reading<A: Allocator + Clone + Drop>(alloc: &A) -> Result<Reading<A>, Reason>
    ensures nothing { IfOk result (λ r. HasTokens [] r) }
    ensures memory { IfErr result (λ reason. reason ≡ Memory) }
{
    let pending = Vec::new(alloc.clone()?);
    let names = Vec::new(alloc.clone()?);
    let steps = Vec::new(alloc.clone()?);
    Ok(Reading {
        pending,
        names,
        steps,
        levels: 0,
        after_operand: false,
    })
}

/// Reads the expression that a text spells.
///
/// A name is a run of bytes other than blank, tab, LF, `(`, `)`, `&`, `+`, `|` and `"`, and isn't `-` alone; or any
/// bytes between two `"`. `+` and `|` are the union, `&` is the intersection, and a word that is `-` alone is the
/// difference. `&` binds tighter than the others, which bind alike, from the left. Parentheses may be nested in 64
/// levels.
///
/// An error is the first fault of the text, which then spells no expression, or that memory was refused.
pub fn parse<A: Allocator + Clone + Drop>(alloc: A, text: &[u8]) -> Result<Parsed<A>, SyntaxFault>
    ensures spelled { IfOk result (λ x. IsExpressionText text.now (map (λ v. v.items) x.names.items) x.steps.items) }
    ensures fault { IfErr result (λ f. f.offset ≤ length text.now) }
    ensures unspelled { IfErr result (λ f. f.reason ≢ Memory → SpellsNothing text.now) }
{
    let mut reading = match new_reading(&alloc) {
        Ok(reading) => reading,
        Err(reason) => return Err(SyntaxFault { offset: 0, reason }),
    };
    reading.put_all(&alloc, text)?;
    match reading.finish() {
        Ok(parsed) => Ok(parsed),
        Err(reason) => Err(SyntaxFault {
            offset: text.len(),
            reason,
        }),
    }
}
