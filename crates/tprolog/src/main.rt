//! Searches a model for an answer to a goal, and prints the answer with its timed history.
//!
//! The words are the name of the model's file and the goal. Everything is printed to standard
//! output, and the exit status is the number of the run's [`Status`].
#![tactic(auto)]

use std::alloc::AllocError;
use std::env;
use std::io::ErrorKind;
use std::process::ExitCode;
use tp_meters::{EventMeter, MailMeter, Meter, ProcMeter, TimeMeter};
use tp_outside::{FileShelf, OutSink};
use tp_top::{Status, run};

/// The exit status where a word isn't text in UTF-8.
const NOT_TEXT: u8 = 10;

/// The words behind the program's name, or the exit status where they aren't had.
fn words(rt: &HostRuntime) -> Result<Vec<String>, u8> {
    let args = match env::args(rt) {
        Ok(args) => args,
        Err(error) if error.kind() == ErrorKind::OutOfMemory => return Err(Status::Memory.number()),
        Err(_) => return Err(NOT_TEXT),
    };
    let mut words = Vec::new(rt.alloc());
    for word in args.skip(1) {
        if words.push(word).is_err() {
            return Err(Status::Memory.number());
        }
    }
    Ok(words)
}

/// Makes the meters, and runs with these words.
fn run_with(rt: &HostRuntime, words: &[String]) -> Result<Status, AllocError> {
    let alloc = rt.alloc();
    let mut meters: Vec<Box<dyn Meter>> = Vec::new(alloc);
    meters.push(Box::new(alloc, EventMeter::new())?)?;
    meters.push(Box::new(alloc, TimeMeter::new())?)?;
    meters.push(Box::new(alloc, MailMeter::new())?)?;
    meters.push(Box::new(alloc, ProcMeter::new())?)?;
    let mut shelf = FileShelf::new(rt);
    let mut sink = OutSink::new(rt);
    Ok(run(alloc, words, &mut shelf, &mut sink, &mut meters))
}

fn main(rt: HostRuntime) -> ExitCode {
    let words = match words(&rt) {
        Ok(words) => words,
        Err(number) => return ExitCode::from(number),
    };
    let status = run_with(&rt, &words).unwrap_or(Status::Memory);
    ExitCode::from(status.number())
}
