//! The last line of a run.

ghost use Rattle.std.specs.Prelude.{chars};
ghost use Rattle.tp_terms.specs.Added.{Adds};
ghost use Rattle.tp_report.specs.End.{ended_line, searched_line, raised_line, last_line};

use crate::pieces::{Piece, add_pieces};
use tp_terms::{NoMemory, Text};

/// How a run ended.
#[derive(Debug, Drop)]
pub enum EndLine {
    /// As many answers as were wanted were found.
    Stopped,
    /// There are no answers beside those that were found. The counts are of the dead ends, by their
    /// causes.
    NoMore {
        /// Steps that failed.
        failed: u64,
        /// Steps that found every live process waiting.
        deadlock: u64,
        /// Steps that found a live process past its end time.
        late: u64,
    },
    /// There is no answer. The counts are of the dead ends, by their causes.
    No {
        /// Steps that failed.
        failed: u64,
        /// Steps that found every live process waiting.
        deadlock: u64,
        /// Steps that found a live process past its end time.
        late: u64,
    },
    /// A step raised an error.
    Raised {
        /// The written form of the error term.
        term: Text,
        /// The simulated time of that step.
        clock: i64,
    },
    /// The steps were used up.
    Budget,
}

/// Dead ends by their causes.
#[derive(Clone, Copy)]
struct DeadEnds {
    /// Steps that failed.
    failed: u64,
    /// Steps that found every live process waiting.
    deadlock: u64,
    /// Steps that found a live process past its end time.
    late: u64,
}

/// Adds the line of a run that ended in this way.
fn add_end(how: &str, steps: u64, out: &mut String) -> Result<(), NoMemory>
    ensures added { Adds out.old out.new result (ended_line (chars how.now) steps) }
{
    add_pieces(
        &[
            Piece::Text(how),
            Piece::Text(" after "),
            Piece::Count(steps),
            Piece::Text(" steps\n"),
        ],
        out,
    )
}

/// Adds the line of a run that left nothing to search, with its dead ends by their causes.
fn add_counts(how: &str, steps: u64, dead: DeadEnds, out: &mut String) -> Result<(), NoMemory>
    ensures added { Adds out.old out.new result
        (searched_line (chars how.now) steps dead.failed dead.deadlock dead.late) }
{
    add_pieces(
        &[
            Piece::Text(how),
            Piece::Text(" after "),
            Piece::Count(steps),
            Piece::Text(" steps: "),
            Piece::Count(dead.failed),
            Piece::Text(" failed "),
            Piece::Count(dead.deadlock),
            Piece::Text(" deadlock "),
            Piece::Count(dead.late),
            Piece::Text(" late\n"),
        ],
        out,
    )
}

/// Adds the line of a run that ended with an error, whose term is written like this.
fn add_raised(term: &Text, clock: i64, steps: u64, out: &mut String) -> Result<(), NoMemory>
    ensures added { Adds out.old out.new result (raised_line term.now clock steps) }
{
    add_pieces(
        &[
            Piece::Text("error "),
            Piece::Text(term.as_str()),
            Piece::Text(" at "),
            Piece::Integer(clock),
            Piece::Text(" after "),
            Piece::Count(steps),
            Piece::Text(" steps\n"),
        ],
        out,
    )
}

/// Adds the last line of a run that ended so after so many steps, as docs/REPORT.md has it.
///
/// # Errors
/// `NoMemory` where memory was refused; then a prefix of the line was added.
pub fn end_text(end: &EndLine, steps: u64, out: &mut String) -> Result<(), NoMemory>
    ensures added { Adds out.old out.new result (last_line end.now steps) }
{
    match end {
        EndLine::Stopped => add_end("stopped", steps, out),
        EndLine::NoMore {
            failed,
            deadlock,
            late,
        } => {
            let dead = DeadEnds {
                failed: *failed,
                deadlock: *deadlock,
                late: *late,
            };
            add_counts("no more", steps, dead, out)
        },
        EndLine::No {
            failed,
            deadlock,
            late,
        } => {
            let dead = DeadEnds {
                failed: *failed,
                deadlock: *deadlock,
                late: *late,
            };
            add_counts("no", steps, dead, out)
        },
        EndLine::Raised { term, clock } => add_raised(term, *clock, steps, out),
        EndLine::Budget => add_end("budget", steps, out),
    }
}
