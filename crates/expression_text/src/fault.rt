//! Why a text is not an expression.
ghost use Rattle.std.specs.Prelude.{◌≡◌};
ghost use Rattle.expression_text.specs.declared.fault.Reason.TheVariants.{Memory};

use std::alloc::{AllocError, AllocFailed};

/// Why a text is not an expression.
#[derive(Clone, Copy, Debug, PartialEq, Eq)]
pub enum Reason {
    /// A name or an opening parenthesis is missing before this place.
    MissingOperand,
    /// An operator is missing before this place.
    MissingOperator,
    /// A parenthesis is not closed at the end of the text.
    MissingClosing,
    /// A parenthesis is closed that was not opened.
    UnexpectedClosing,
    /// A quote is not closed.
    OpenQuote,
    /// A parenthesis is one level too deep.
    TooDeep,
    /// There is nothing between two quotes.
    EmptyName,
    /// Memory was refused.
    Memory,
}

/// The first fault of a text.
#[derive(Clone, Copy, Debug, PartialEq, Eq)]
pub struct SyntaxFault {
    /// How many bytes are before the token at fault; the length of the text for a fault at its end.
    pub offset: usize,
    /// What is wrong there.
    pub reason: Reason,
}

impl From<AllocError> for Reason {
    ghost from_gives = { λ _ e. e ≡ Memory };

    fn from(_e: AllocError) -> Reason {
        Reason::Memory
    }
}

impl<T: Drop> From<AllocFailed<T>> for Reason {
    ghost from_gives = { λ _ e. e ≡ Memory };

    fn from(_e: AllocFailed<T>) -> Reason {
        Reason::Memory
    }
}
