//! Laws of the definitions: each function does nothing, and its clauses state a law.

ghost use Rattle.tp_meaning.specs.Reserved.{ReservedAreOwn};
ghost use Rattle.tp_meaning.specs.Rules.{SearchHasItsRules};
ghost use Rattle.tp_meaning.specs.Unifier.{MguIsTheOneUnifier};
ghost use Rattle.tp_meaning.specs.Valid.{StampsRise};

/// The search has its rules, with no bound on its depth.
pub fn search_rules()
    ensures { SearchHasItsRules }
{}

/// Each world of a step of a valid world is valid, with the stamp plus 1 and no fewer variables.
pub fn stamps_rise()
    ensures { StampsRise }
{}

/// What solving an equation gives is its most general unifier, of which there is only one, and it
/// gives none exactly where nothing solves.
pub fn one_unifier()
    ensures { MguIsTheOneUnifier }
{}

/// A name is reserved for a number of arguments, so that no clause may define it, exactly where no
/// clause changes what a step of such a goal gives.
pub fn reserved_names()
    ensures { ReservedAreOwn }
{}
