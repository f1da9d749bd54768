//! The lines of the answers.

ghost use Rattle.std.specs.Prelude.{◌≡◌, map, IfOk, Some};
ghost use Rattle.tp_terms.specs.Added.{Adds};
ghost use Rattle.tp_engine.specs.Answers.{answer_in};
ghost use Rattle.tp_engine.specs.Told.{IsSound, world_in};
ghost use Rattle.tp_top.specs.Metered.{MayCount, meter_lines, printed_kinds};
ghost use Rattle.tp_top.specs.Told.{lines_of};

use crate::meters::Counting;
use std::alloc::Global;
use tp_engine::{AnswerFault, AnswerView, Answers};
use tp_outside::{Sink, write_all};
use tp_report::answer_text;
use tp_terms::{AtomId, NoMemory};

/// Writes the lines of each answer when it is found. No more than one answer's lines are held.
#[derive(Drop)]
pub struct Printer<'a, W, M> {
    /// Where the memory for the lines of an answer comes from.
    pub alloc: Global,
    /// Where the lines go.
    pub sink: &'a mut W,
    /// The meters, which belong to the caller of the run.
    pub meters: &'a mut M,
    /// Whether the meters count each answer, and their lines stand behind it.
    pub metered: bool,
}

/// The names of the processes by their numbers.
fn process_names(alloc: Global, view: &AnswerView<'_>) -> Result<Vec<AtomId>, NoMemory>
    ensures { IfOk result (λ names.
        names.items ≡ map (λ process. process.name) view.now.plain.procs) }
{
    let mut names = Vec::new(alloc);
    'processes: for pid in 0..view.processes() {
        names.push(view.process_name(pid))?;
    }
    Ok(names)
}

/// Adds the lines of the answer that an engine stands at.
fn add_answer(text: &mut String, view: &AnswerView<'_>) -> Result<(), NoMemory>
    requires { IsSound view.now }
    ensures added { Adds text.old text.new result (lines_of (answer_in view.now)) }
{
    let alloc = *text.allocator();
    let names = process_names(alloc, view)?;
    answer_text(
        alloc,
        view.number(),
        view.named(),
        view.cells(),
        view.store(),
        view.events(),
        &names,
        view.clock(),
        view.steps(),
        view.ops(),
        view.atoms(),
        text,
    )
}

/// Where meters are printed, they count the history of the answer that an engine stands at, and
/// their lines are added.
fn add_counted<M: Counting>(
    text: &mut String,
    view: &AnswerView<'_>,
    meters: &mut M,
    metered: bool,
) -> Result<(), NoMemory>
    ensures added { Adds text.old text.new result
        (meter_lines (printed_kinds metered (M.kinds meters.old))
        (world_in view.now).history) }
    ensures kinds { M.kinds meters.new ≡ M.kinds meters.old }
    ensures counted { MayCount result metered (M.kinds meters.old)
        (Some (world_in view.now).history) (M.numbers meters.old)
        (M.numbers meters.new) }
{
    if metered {
        meters.count(view, text)
    } else {
        Ok(())
    }
}

impl<W: Sink, M: Counting> Answers for Printer<'_, W, M> {
    ghost use Rattle.std.specs.Prelude.{◌≡◌};
    ghost use Rattle.tp_top.specs.Written.{HasFailed, HasWritten, writing};

    ghost takes = { λ old answer new.
        (new.sink.ghost_name ≡ old.sink.ghost_name)
        × (new.meters.ghost_name ≡ old.meters.ghost_name)
        × HasWritten
        (writing (W.faults old.sink.now) (W.taken old.sink.now) old.metered
        (M.kinds old.meters.now)
        (M.numbers old.meters.now))
        answer
        (writing (W.faults new.sink.now) (W.taken new.sink.now) new.metered
        (M.kinds new.meters.now)
        (M.numbers new.meters.now)) };

    ghost leaves = { λ old answer fault new.
        (new.sink.ghost_name ≡ old.sink.ghost_name)
        × (new.meters.ghost_name ≡ old.meters.ghost_name)
        × HasFailed
        (writing (W.faults old.sink.now) (W.taken old.sink.now) old.metered
        (M.kinds old.meters.now)
        (M.numbers old.meters.now))
        answer fault
        (writing (W.faults new.sink.now) (W.taken new.sink.now) new.metered
        (M.kinds new.meters.now)
        (M.numbers new.meters.now)) };

    ghost faults = { λ printer. W.faults printer.sink.now };

    fn answer(&mut self, view: &AnswerView<'_>) -> Result<(), AnswerFault> {
        let mut text = String::new(self.alloc);
        add_answer(&mut text, view)?;
        add_counted(&mut text, view, self.meters, self.metered)?;
        match write_all(self.sink, text.as_bytes()) {
            Ok(()) => Ok(()),
            Err(_) => Err(AnswerFault::Write),
        }
    }
}
