//! Laws of expressions, each the contract of a function that does nothing.
ghost use Rattle.std.specs.Prelude.{ℕ, List};
ghost use Rattle.core_laws.specs.Entries.{hash_key};
ghost use Rattle.core_laws.specs.Samples.{IsSample, AreSamples};
ghost use Rattle.core_laws.specs.Values.{Sketch};
ghost use Rattle.expression_text.specs.Expressions.{Expression};
ghost use Rattle.expression_evaluation.specs.Values.{hashes_value, set_of};

/// If each value retains exactly the hashes of its whole stream's set below its theta, the value of an expression
/// retains exactly those of the same expression of the sets.
pub fn expressions_of_samples()
    ensures { (lg_k : ℕ) (values : List (Sketch ℕ)) (sets : List (List ℕ)) (e : Expression)
        → AreSamples hash_key values sets
        → IsSample hash_key (hashes_value lg_k values e) (set_of sets e) }
{}
