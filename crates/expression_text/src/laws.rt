//! Laws of expressions, each the contract of a function that does nothing.
ghost use Rattle.std.specs.Prelude.{◌≡◌, ℕ, List};
ghost use Rattle.expression_text.specs.declared.operator.Step.{Step};
ghost use Rattle.expression_text.specs.Grammar.{IsExpressionText};

/// A text has one list of names.
pub fn names_of_a_text()
    ensures { (text : List ℕ) (names others : List (List ℕ)) (steps more : List Step)
        → IsExpressionText text names steps
        → IsExpressionText text others more
        → names ≡ others }
{}
