//! The whole program as one call.

ghost use Rattle.std.specs.Prelude.{◌≡◌, ◌+◌, ◌<◌, ◌≤◌, ℕ, List, map, Option, Some, true};
ghost use Rattle.tp_words.specs.Command.{words_of};
ghost use Rattle.tp_outside.specs.Files.{Files};
ghost use Rattle.tp_top.specs.Ended.{asks_sample, is_sample, number_of, Ended};
ghost use Rattle.tp_top.specs.Expected.{request};
ghost use Rattle.tp_top.specs.Sample.{HeldUnder, SampleOf};
ghost use Rattle.tp_top.specs.Told.{request_in, source_in};
ghost use Rattle.tp_top.specs.Written.{status_after};

#[cfg(test)]
mod tests;

use crate::answer::answer;
use crate::asked::{Asked, Source};
use crate::meters::Counting;
use crate::refusal::{too_long, unread, usage};
use crate::report::say;
use crate::sample::sample_text;
use std::alloc::Global;
use tp_engine::AnswerFault;
use tp_meters::Meter;
use tp_outside::{LONGEST_TEXT, ReadError, Shelf, Sink, read_all};
use tp_terms::NoMemory;
use tp_words::{WordsFault, read_words};

/// How a run ends. The number of each, from 0, is the exit status of the program.
#[derive(Clone, Copy, Debug, PartialEq, Eq)]
pub enum Status {
    /// An answer was found.
    Found,
    /// The search ended without an answer.
    No,
    /// The search ended with an error term.
    Raised,
    /// The steps were used up.
    Budget,
    /// The words are no request.
    Usage,
    /// The model was refused.
    Model,
    /// The goal was refused.
    Goal,
    /// The model couldn't be read.
    Read,
    /// Not all could be written.
    Write,
    /// Memory was refused.
    Memory,
}

impl Status {
    /// The number of the status, from 0 to 9.
    pub fn number(self) -> u8
        ensures { result ≡ number_of self }
    {
        self as u8
    }
}

/// The status of what was written.
fn status_of(written: Result<Status, AnswerFault>) -> Status
    ensures { result ≡ status_after written }
{
    match written {
        Ok(status) => status,
        Err(AnswerFault::Write) => Status::Write,
        Err(AnswerFault::NoMemory) => Status::Memory,
    }
}

/// Reads the model of a request that is held under a name, and answers its goal.
fn perform_held<S: Shelf, W: Sink, M: Counting>(
    name: &str,
    asked: Asked<'_>,
    shelf: &mut S,
    sink: &mut W,
    meters: &mut M,
) -> Status
    requires answers { 0 < asked.answers }
    requires source { source_in asked.source ≡ HeldUnder name.now }
    ensures held_stays { S.held shelf.new ≡ S.held shelf.old }
    ensures reads_never_fall { S.faults shelf.old ≤ S.faults shelf.new }
    ensures read_once { S.given shelf.new ≤ S.given shelf.old + (LONGEST_TEXT + 1) }
    ensures writes_never_fall { W.faults sink.old ≤ W.faults sink.new }
    ensures kinds { M.kinds meters.new ≡ M.kinds meters.old }
    ensures ended { (words : List (List ℕ)) → request words ≡ Some (request_in asked.entry) →
        Ended (record {
          held = S.held shelf.old;
          words = words;
          reads_before = S.faults shelf.old;
          reads_after = S.faults shelf.new;
          writes_before = W.faults sink.old;
          writes_after = W.faults sink.new;
          taken_before = W.taken sink.old;
          taken_after = W.taken sink.new;
          kinds = M.kinds meters.old;
          numbers_before = M.numbers meters.old;
          numbers_after = M.numbers meters.new;
        }) result }
{
    match read_all(asked.alloc, shelf, name) {
        Ok(text) => status_of(answer(&text, asked, sink, meters)),
        Err(ReadError::Fault) => status_of(say(sink, &unread())),
        Err(ReadError::TooLong) => status_of(say(sink, &too_long())),
        Err(ReadError::NoMemory) => Status::Memory,
    }
}

/// Makes the model of a sample with so many processes, and counts what is found of its goal.
/// Whatever a shelf tells, it isn't read.
fn perform_sample<W: Sink, M: Counting>(
    n: u64,
    asked: Asked<'_>,
    sink: &mut W,
    meters: &mut M,
) -> Status
    requires answers { 0 < asked.answers }
    requires source { source_in asked.source ≡ SampleOf n }
    ensures writes_never_fall { W.faults sink.old ≤ W.faults sink.new }
    ensures kinds { M.kinds meters.new ≡ M.kinds meters.old }
    ensures ended { (words : List (List ℕ)) → (held : Option Files) → (reads : ℕ) →
        request words ≡ Some (request_in asked.entry) →
        Ended (record {
          held = held;
          words = words;
          reads_before = reads;
          reads_after = reads;
          writes_before = W.faults sink.old;
          writes_after = W.faults sink.new;
          taken_before = W.taken sink.old;
          taken_after = W.taken sink.new;
          kinds = M.kinds meters.old;
          numbers_before = M.numbers meters.old;
          numbers_after = M.numbers meters.new;
        }) result }
{
    match sample_text(asked.alloc, n) {
        Ok(text) => status_of(answer(text.as_bytes(), asked, sink, meters)),
        Err(NoMemory) => Status::Memory,
    }
}

/// Reads or makes the model of a request, and answers its goal.
fn perform<S: Shelf, W: Sink, M: Counting>(
    asked: Asked<'_>,
    shelf: &mut S,
    sink: &mut W,
    meters: &mut M,
) -> Status
    requires answers { 0 < asked.answers }
    ensures held_stays { S.held shelf.new ≡ S.held shelf.old }
    ensures reads_never_fall { S.faults shelf.old ≤ S.faults shelf.new }
    ensures read_once { S.given shelf.new ≤ S.given shelf.old + (LONGEST_TEXT + 1) }
    ensures writes_never_fall { W.faults sink.old ≤ W.faults sink.new }
    ensures kinds { M.kinds meters.new ≡ M.kinds meters.old }
    ensures unread { is_sample (source_in asked.entry.source) ≡ true → shelf.new ≡ shelf.old }
    ensures ended { (words : List (List ℕ)) → request words ≡ Some (request_in asked.entry) →
        Ended (record {
          held = S.held shelf.old;
          words = words;
          reads_before = S.faults shelf.old;
          reads_after = S.faults shelf.new;
          writes_before = W.faults sink.old;
          writes_after = W.faults sink.new;
          taken_before = W.taken sink.old;
          taken_after = W.taken sink.new;
          kinds = M.kinds meters.old;
          numbers_before = M.numbers meters.old;
          numbers_after = M.numbers meters.new;
        }) result }
{
    match asked.source {
        Source::Held(name) => perform_held(name, asked, shelf, sink, meters),
        Source::Sample(n) => perform_sample(n, asked, sink, meters),
    }
}

/// Does all that the program does with the words behind its name: a model's name, a goal, the
/// options `--steps N` and `--answers N`, and the flag `--meters`; or `--sample N`, with
/// `--steps N` or without.
///
/// The model is read from the shelf, the goal is searched for so many answers with at most so many
/// steps, and what was found, or why there was nothing to find, is written to the sink, each answer
/// when it is found. Nothing is left for the caller to print.
///
/// With `--sample N` the model is that of [`sample_text`](crate::sample_text), the goal is `top`,
/// and no answer is written. The counts are written when the search has ended. The shelf stays as
/// it is.
///
/// With `--meters` each meter of the list counts the history of each answer that is printed, and
/// that alone, and a line for each stands behind the answer's own. Afterwards they hold their
/// numbers of the last answer, unless a write failed or memory was refused. The list belongs to the
/// caller. Its length and the kinds never change, and without `--meters` the numbers stay.
pub fn run<S: Shelf, W: Sink>(
    alloc: Global,
    words: &[String],
    shelf: &mut S,
    sink: &mut W,
    meters: &mut Vec<Box<dyn Meter>>,
) -> Status
    ensures held_stays { S.held shelf.new ≡ S.held shelf.old }
    ensures reads_never_fall { S.faults shelf.old ≤ S.faults shelf.new }
    ensures read_once { S.given shelf.new ≤ S.given shelf.old + (LONGEST_TEXT + 1) }
    ensures writes_never_fall { W.faults sink.old ≤ W.faults sink.new }
    ensures kinds { map kind_of meters.new.items ≡ map kind_of meters.old.items }
    ensures unread { asks_sample (request (words_of words.now)) ≡ true → shelf.new ≡ shelf.old }
    ensures ended { Ended (record {
      held = S.held shelf.old;
      words = words_of words.now;
      reads_before = S.faults shelf.old;
      reads_after = S.faults shelf.new;
      writes_before = W.faults sink.old;
      writes_after = W.faults sink.new;
      taken_before = W.taken sink.old;
      taken_after = W.taken sink.new;
      kinds = map kind_of meters.old.items;
      numbers_before = map state meters.old.items;
      numbers_after = map state meters.new.items;
    }) result }
{
    match read_words(alloc, words) {
        Ok(request) => perform(Asked::of(alloc, &request), shelf, sink, meters),
        Err(WordsFault::Usage) => status_of(say(sink, &usage())),
        Err(WordsFault::NoMemory) => Status::Memory,
    }
}
