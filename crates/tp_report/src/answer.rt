//! The lines of an answer.

ghost use Rattle.std.specs.Prelude.{◌≡◌, ◌<◌, length};
ghost use Rattle.std.specs.List.{AllByRecursion};
ghost use Rattle.tp_terms.specs.Shown.{AreNamed};
ghost use Rattle.tp_terms.specs.Binds.{Fits};
ghost use Rattle.tp_terms.specs.Added.{Adds};
ghost use Rattle.tp_terms.specs.Events.{EventStands};
ghost use Rattle.tp_meaning.specs.World.{World};
ghost use Rattle.tp_report.specs.Lines.{lines_seen};
ghost use Rattle.tp_report.specs.Report.{number_line, clock_line, world_answer_text};
ghost use Rattle.tp_report.specs.Seen.{seen_in};
ghost use Rattle.tp_report.specs.Worlds.{StandsFor};

use crate::pieces::{Piece, add_pieces};
use crate::scene::Scene;
use std::alloc::Global;
use tp_history::Events;
use tp_parse::Ops;
use tp_terms::{AtomId, Atoms, Binds, Cells, Named, NoMemory};

/// Adds the lines of an answer, as docs/REPORT.md has them: its number, from 1; the named variables
/// of the goal with their terms; the events; and the clock, in units of simulated time, with the
/// steps of the search so far.
///
/// `names` has the names of the processes by their numbers. The terms are those that `cells` show
/// with all of `binds` followed.
///
/// # Errors
/// `NoMemory` where memory was refused; then a prefix of the lines was added.
#[allow(clippy::too_many_arguments)]
pub fn answer_text<B: Binds>(
    alloc: Global,
    number: u64,
    named: &[Named],
    cells: &Cells,
    binds: &B,
    events: &Events,
    names: &[AtomId],
    clock: i64,
    steps: u64,
    ops: &Ops,
    atoms: &Atoms,
    out: &mut String,
) -> Result<(), NoMemory>
    requires fits { Fits (B.bindings binds.now) cells.now.items }
    requires named_cells { AreNamed (length atoms.now) cells.now.items }
    requires named_processes { AllByRecursion (λ a. a.at < length atoms.now) names.now }
    requires events { AllByRecursion
        (EventStands (length atoms.now) (length cells.now.items) (length names.now)) events.now }
    ensures added { let s =
        seen_in atoms.now (B.bindings binds.now) cells.now.items names.now ops.now in
        Adds out.old out.new result (lines_seen s number named.now events.now clock steps) }

    // The lines are those of each world that the cells and bindings stand for.
    ensures world { let s =
        seen_in atoms.now (B.bindings binds.now) cells.now.items names.now ops.now in
        (w : World) → StandsFor s events.now clock w →
        lines_seen s number named.now events.now clock steps
        ≡ world_answer_text s.ops named.now number w steps }
{
    let scene = Scene {
        alloc,
        cells,
        binds,
        processes: names,
        ops,
        atoms,
    };
    add_number(number, out)?;
    scene.add_variables(named, out)?;
    scene.add_events(events, out)?;
    add_clock(clock, steps, out)
}

/// Adds the first line of an answer.
fn add_number(number: u64, out: &mut String) -> Result<(), NoMemory>
    ensures added { Adds out.old out.new result (number_line number) }
{
    add_pieces(
        &[
            Piece::Text("answer "),
            Piece::Count(number),
            Piece::Text("\n"),
        ],
        out,
    )
}

/// Adds the last line of an answer.
fn add_clock(clock: i64, steps: u64, out: &mut String) -> Result<(), NoMemory>
    ensures added { Adds out.old out.new result (clock_line clock steps) }
{
    add_pieces(
        &[
            Piece::Text("end "),
            Piece::Integer(clock),
            Piece::Text(" steps "),
            Piece::Count(steps),
            Piece::Text("\n"),
        ],
        out,
    )
}
