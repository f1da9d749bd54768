//! Laws of the definitions: each function does nothing, and its clauses state a law.

ghost use Rattle.tp_parse.specs.Laws.{EachClauseIsPlaced, EachHasOneOutcome, EachTermIsNumbered};
ghost use Rattle.tp_parse.specs.Laws.{ReadingFollowsGrammar};

/// Every list of tokens, read as a clause or as a goal, has either exactly one reading or exactly
/// one stop, and not both (the grammar of terms of ISO/IEC 13211-1, clause 6.3, as docs/LANGUAGE.md
/// gives it).
///
/// The function of reading that the contracts of this crate cite answers a term exactly where the
/// grammar has that reading, and a refusal exactly where the grammar has that stop.
pub fn one_reading()
    ensures one { EachHasOneOutcome }
    ensures follows { ReadingFollowsGrammar }
{}

/// Each term that is read has its variables numbered from 0 within their count, a name at one
/// number and `_` at none, and a clause stands behind the byte from which it is read; the text may
/// be read on from its end.
pub fn what_is_read()
    ensures numbered { EachTermIsNumbered }
    ensures placed { EachClauseIsPlaced }
{}
