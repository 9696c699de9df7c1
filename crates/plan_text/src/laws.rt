//! Laws of the definitions.
ghost use Rattle.plan_text.specs.First.{NothingBegins, FrontBegins, FrontIsFaultless, DeepBegins, DeepIsDeep};
ghost use Rattle.plan_text.specs.First.{MissingBegins, FaultlessIsSpelled, SpellsOne};

/// The fault of a text is its first one, measured by commands with any number of levels. By clauses:
///
/// - `nothing`: no command begins with the lines up to a syntax fault.
/// - `front`: the lines before a fault begin a command.
/// - `faultless`: the lines before a fault have none, whatever follows them.
/// - `deep` and `deeper`: the lines up to a node of one level too many begin a command, and each such command has
///   more than 64 levels.
/// - `missing`: lines after which one is missing spell no command, but begin one.
pub fn first_fault()
    ensures nothing { NothingBegins }
    ensures front { FrontBegins }
    ensures faultless { FrontIsFaultless }
    ensures deep { DeepBegins }
    ensures deeper { DeepIsDeep }
    ensures missing { MissingBegins }
{}

/// A text spells at most one command.
pub fn one_command()
    ensures { SpellsOne }
{}

/// A text has no fault exactly if it spells a command.
pub fn fault_or_command()
    ensures { FaultlessIsSpelled }
{}
