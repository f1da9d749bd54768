//! The name of the process that did an event.

ghost use Rattle.std.specs.Prelude.{chars};
ghost use Rattle.tp_terms.specs.Added.{Adds};
ghost use Rattle.tp_report.specs.Report.{doer_text};

use tp_lex::is_letter_digit;
use tp_terms::{NoMemory, push_text};
use tp_write::write_quoted;

/// Adds the name of the process that did an event: without quotes only where it is a letter-digit
/// name.
pub fn add_doer(name: &str, out: &mut String) -> Result<(), NoMemory>
    ensures added { Adds out.old out.new result (doer_text (chars name.now)) }
{
    if is_letter_digit(name) {
        push_text(name, out)
    } else {
        write_quoted(name, out)
    }
}
