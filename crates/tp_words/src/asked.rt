//! What matches ask for.

ghost use Rattle.std.specs.Prelude.{◌≡◌, IfOk, option_map};
ghost use Rattle.clap.specs.Words.{found_of, rows_of};
ghost use Rattle.tp_words.specs.Asked.{asked_request, told, values_in};
ghost use Rattle.tp_words.specs.Request.{given_of, is_true as is_true_of, request_from, request_of};
ghost use Rattle.tp_words.specs.Request.{asks_run as asks_run_of, run_from, sample_from};

use crate::Request;
use crate::number::{number_in, number_or};
use clap::ArgMatches;
use std::alloc::{AllocError, Global};
use tp_terms::Text;

/// A request whose texts are lent from the words.
#[derive(Clone, Copy)]
pub enum Asked<'a> {
    /// To search for answers to a goal over a model.
    Run {
        /// The name that the model is held under.
        model: &'a str,
        /// The text of the goal.
        goal: &'a str,
        /// How many steps the search may take.
        steps: u64,
        /// How many answers are wanted.
        answers: u64,
        /// Whether meters are printed behind each answer.
        meters: bool,
    },
    /// To search a model that is made from a number.
    Sample {
        /// How many processes the model has.
        n: u64,
        /// How many steps the search may take.
        steps: u64,
    },
}

impl Asked<'_> {
    /// The request with texts of its own.
    pub fn request(self, alloc: Global) -> Result<Request, AllocError>
        ensures { IfOk result (λ r. r ≡ asked_request self.entry) }
    {
        match self {
            Asked::Run {
                model,
                goal,
                steps,
                answers,
                meters,
            } => Ok(Request::Run {
                model: Text::new(String::from_str(alloc, model)?),
                goal: Text::new(String::from_str(alloc, goal)?),
                steps,
                answers,
                meters,
            }),
            Asked::Sample { n, steps } => Ok(Request::Sample { n, steps }),
        }
    }
}

/// Whether a flag's value is `true`.
fn is_true(value: Option<&str>) -> bool
    ensures { result ≡ is_true_of (told value.entry) }
{
    match value {
        None => false,
        Some(text) => text == "true",
    }
}

/// The first value of each argument.
#[derive(Clone, Copy)]
struct Values<'a> {
    model: Option<&'a str>,
    goal: Option<&'a str>,
    steps: Option<&'a str>,
    answers: Option<&'a str>,
    meters: Option<&'a str>,
    sample: Option<&'a str>,
}

impl<'a> Values<'a> {
    /// The values that the matches have.
    fn of(matches: &ArgMatches<'a>) -> Values<'a>
        ensures { values_in result ≡ given_of (rows_of (found_of matches.now)) }
    {
        Values {
            model: matches.get_str("MODEL"),
            goal: matches.get_str("GOAL"),
            steps: matches.get_str("steps"),
            answers: matches.get_str("answers"),
            meters: matches.get_str("meters"),
            sample: matches.get_str("sample"),
        }
    }

    /// The run that is asked for, where both texts are there and the numbers are in their ranges.
    fn run(self) -> Option<Asked<'a>>
        ensures { option_map asked_request result ≡ run_from (values_in self.entry) }
    {
        let Values {
            model,
            goal,
            steps,
            answers,
            meters,
            ..
        } = self;
        let model = model?;
        let goal = goal?;
        let steps = number_or(steps, 1_000_000, 1_000_000_000)?;
        let answers = number_or(answers, 1, 1_000_000)?;
        Some(Asked::Run {
            model,
            goal,
            steps,
            answers,
            meters: is_true(meters),
        })
    }

    /// Whether there is something that a run alone has.
    fn asks_run(self) -> bool
        ensures { result ≡ asks_run_of (values_in self.entry) }
    {
        self.model.is_some()
            || self.goal.is_some()
            || self.answers.is_some()
            || is_true(self.meters)
    }

    /// The sample of so many processes that is asked for, where the numbers are in their ranges.
    fn sample(self, n: &str) -> Option<Asked<'a>>
        ensures { option_map asked_request result ≡ sample_from n.now (told self.entry.steps) }
    {
        let n = number_in(n, 1, 100_000)?;
        let steps = number_or(self.steps, 1_000_000, 1_000_000_000)?;
        Some(Asked::Sample { n, steps })
    }

    /// What the values ask for: a run, or a sample without anything that a run alone has.
    fn parts(self) -> Option<Asked<'a>>
        ensures { option_map asked_request result ≡ request_from (values_in self.entry) }
    {
        match self.sample {
            None => self.run(),
            Some(_) if self.asks_run() => None,
            Some(n) => self.sample(n),
        }
    }
}

/// What the matches ask for.
pub fn parts_of<'a>(matches: &ArgMatches<'a>) -> Option<Asked<'a>>
    ensures { option_map asked_request result ≡ request_of (rows_of (found_of matches.now)) }
{
    Values::of(matches).parts()
}
