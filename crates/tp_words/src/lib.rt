//! The words of a command line, and the request that they make.
#![tactic(auto)]

ghost use Rattle.std.specs.Prelude.{◌≡◌, IfOk, IsErrOf, None, Some};
ghost use Rattle.tp_words.specs.Command.{words_of};
ghost use Rattle.tp_words.specs.Request.{request};

mod asked;
mod command;
mod fault;
mod matched;
mod number;
#[cfg(test)]
mod tests;

use asked::parts_of;
pub use fault::WordsFault;
use matched::matched;
use std::alloc::Global;
use tp_terms::Text;

/// What the words ask for.
#[derive(Debug, Drop)]
pub enum Request {
    /// To search for answers to a goal over a model.
    Run {
        /// The name that the model is held under.
        model: Text,
        /// The text of the goal.
        goal: Text,
        /// How many steps the search may take, from 1 to 1,000,000,000.
        steps: u64,
        /// How many answers are wanted, from 1 to 1,000,000.
        answers: u64,
        /// Whether meters are printed behind each answer.
        meters: bool,
    },
    /// To search the model of a sample, which is made from a number, and to count what is found.
    Sample {
        /// How many processes the model has, from 1 to 100,000.
        n: u64,
        /// How many steps the search may take, from 1 to 1,000,000,000.
        steps: u64,
    },
}

/// Reads the words behind the program's name. A run has MODEL and GOAL, and may have the options
/// `--steps N` and `--answers N` and the flag `--meters`. A sample has the option `--sample N`, and
/// may have `--steps N`.
///
/// # Errors
/// `Usage` where the words are no request: the command doesn't take them; neither are MODEL and
/// GOAL both there, nor is `--sample`; MODEL, GOAL, `--answers` or `--meters` stands beside
/// `--sample`; or a number isn't one or more ASCII digits with a value in its range. `NoMemory`
/// where memory was refused.
pub fn read_words(alloc: Global, words: &[String]) -> Result<Request, WordsFault>
    ensures ok { IfOk result (λ r. request (words_of words.now) ≡ Some r) }
    ensures usage { IsErrOf result WordsFault.Usage → request (words_of words.now) ≡ None }
{
    let matches = matched(alloc, words)?;
    let Some(parts) = parts_of(&matches) else {
        return Err(WordsFault::Usage);
    };
    Ok(parts.request(alloc)?)
}
