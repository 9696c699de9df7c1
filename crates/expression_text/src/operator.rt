//! Operators, and the steps of an expression in postfix order.

/// An operator on two sets.
#[derive(Clone, Copy, Debug, PartialEq, Eq)]
pub enum Operator {
    /// `+` or `|`: what is in one or in both.
    Union,
    /// `&`: what is in both.
    Intersection,
    /// `-`: what is in the first and not in the second.
    Difference,
}

/// A step of an expression in postfix order.
#[derive(Clone, Copy, Debug, PartialEq, Eq)]
pub enum Step {
    /// Takes the set of the name of this index.
    Operand(usize),
    /// Combines the last two results, the earlier one first.
    Combine(Operator),
}
