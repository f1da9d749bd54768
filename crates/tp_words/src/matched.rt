//! The matches of the words.

ghost use Rattle.std.specs.Prelude.{◌≡◌, IfOk, IsErrOf, None, Some};
ghost use Rattle.clap.specs.Words.{found_of, rows_of};
ghost use Rattle.tp_words.specs.Command.{matches, words_of};

use crate::command::command;
use crate::fault::WordsFault;
use clap::ArgMatches;
use std::alloc::Global;

/// What the command makes of the words.
///
/// # Errors
/// `Usage` where the command doesn't take the words, `NoMemory` where memory was refused.
pub fn matched(alloc: Global, words: &[String]) -> Result<ArgMatches<'_>, WordsFault>
    ensures ok { IfOk result (λ m. matches (words_of words.now) ≡ Some (rows_of (found_of m))) }
    ensures usage { IsErrOf result WordsFault.Usage → matches (words_of words.now) ≡ None }
{
    let command = command(alloc)?;
    Ok(command.try_get_matches_from(words)?)
}
