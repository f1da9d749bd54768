//! What a request asks for.

ghost use Rattle.std.specs.Prelude.{◌≡◌};
ghost use Rattle.tp_top.specs.Expected.{asked as asked_for};
ghost use Rattle.tp_top.specs.Told.{request_in};

use std::alloc::Global;
use tp_words::Request;

/// Where the text of a model comes from.
#[derive(Clone, Copy)]
pub enum Source<'a> {
    /// It is held under this name.
    Held(&'a str),
    /// It is that of a sample with so many processes.
    Sample(u64),
}

/// What a request asks for, its texts lent, and where memory comes from.
#[derive(Clone, Copy)]
pub struct Asked<'a> {
    /// Where the memory for all that is made comes from.
    pub alloc: Global,
    /// Where the model comes from.
    pub source: Source<'a>,
    /// The text of the goal.
    pub goal: &'a str,
    /// How many steps the search may take.
    pub steps: u64,
    /// How many answers are wanted.
    pub answers: u64,
    /// Whether meters are printed behind each answer.
    pub meters: bool,
}

impl<'a> Asked<'a> {
    /// What this request asks for, with memory from there.
    pub fn of(alloc: Global, request: &'a Request) -> Asked<'a>
        ensures { request_in result ≡ asked_for request.now }
    {
        match request {
            Request::Run {
                model,
                goal,
                steps,
                answers,
                meters,
            } => Asked {
                alloc,
                source: Source::Held(model.as_str()),
                goal: goal.as_str(),
                steps: *steps,
                answers: *answers,
                meters: *meters,
            },
            Request::Sample { n, steps } => Asked {
                alloc,
                source: Source::Sample(*n),
                goal: "top",
                steps: *steps,
                answers: 1,
                meters: false,
            },
        }
    }
}
