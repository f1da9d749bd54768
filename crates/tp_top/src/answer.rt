//! The answer to the text of a model and of a goal, written as it is found.

ghost use Rattle.std.specs.Prelude.{◌≡◌, ◌<◌, ◌≤◌, length, Err, IfErr, IfOk, OnOk};
ghost use Rattle.tp_outside.specs.Taken.{added};
ghost use Rattle.tp_terms.specs.Shown.{AreNamed};
ghost use Rattle.tp_engine.specs.Ended.{answers_of, outcome_of, Finds};
ghost use Rattle.tp_clauses.specs.Model.{model};
ghost use Rattle.tp_machine.specs.Program.{GoalFits};
ghost use Rattle.tp_engine.specs.Told.{IsSame, MayRun};
ghost use Rattle.tp_engine.specs.declared.phase.Phase.{Phase};
ghost use Rattle.tp_top.specs.Expected.{for_goal, for_model};
ghost use Rattle.tp_top.specs.Metered.{MayCount, printed_kinds};
ghost use Rattle.tp_top.specs.Report.{last_history};
ghost use Rattle.tp_top.specs.Told.{for_read, found_in, model_in, report_in, reported_in};
ghost use Rattle.tp_top.specs.Told.{request_in, sample_in, shown_bytes, source_in};
ghost use Rattle.tp_top.specs.Written.{Writes};

use crate::asked::{Asked, Source};
use crate::lines::Printer;
use crate::meters::Counting;
use crate::program::Status;
use crate::refusal::{goal_refused, model_refused};
use crate::report::{Counted, report, sample_report, say_made};
use crate::sample::Tally;
use tp_clauses::{Base, Cause, LoadFault, cause_of};
use tp_engine::{AnswerFault, Ended, Engine, StartFault};
use tp_outside::Sink;
use tp_parse::{ReadFault, ReadTerm, read_goal};
use tp_terms::Atoms;

/// Searches from the start that an engine stands at, and writes each answer when it is found.
fn print_answers<W: Sink, M: Counting>(
    engine: &mut Engine<'_>,
    steps: u64,
    answers: u64,
    printer: &mut Printer<'_, W, M>,
) -> Result<Ended, AnswerFault>
    requires run { MayRun engine.old.phase }
    requires answers { 0 < answers }
    ensures same_sink { printer.new.sink.ghost_name ≡ printer.old.sink.ghost_name }
    ensures same_meters { printer.new.meters.ghost_name ≡ printer.old.meters.ghost_name }
    ensures never_falls { W.faults printer.old.sink.now ≤ W.faults printer.new.sink.now }
    ensures wrote { OnOk result
        ((W.faults printer.new.sink.now ≡ W.faults printer.old.sink.now)
        × (W.taken printer.new.sink.now ≡ added (W.taken printer.old.sink.now)
        (shown_bytes (printed_kinds printer.old.metered (M.kinds printer.old.meters.now))
        (answers_of engine.old steps answers)))) }
    ensures cut { IfErr result (λ fault. Writes
        (report_in (printed_kinds printer.old.metered (M.kinds printer.old.meters.now))
        engine.old steps answers)
        (W.faults printer.old.sink.now) (W.faults printer.new.sink.now)
        (W.taken printer.old.sink.now) (W.taken printer.new.sink.now) (Err fault)) }
    ensures kinds { M.kinds printer.new.meters.now ≡ M.kinds printer.old.meters.now }
    ensures counted { MayCount result printer.old.metered
        (M.kinds printer.old.meters.now)
        (last_history (outcome_of engine.old steps answers).answers)
        (M.numbers printer.old.meters.now) (M.numbers printer.new.meters.now) }
    ensures found { IfOk result (Finds (outcome_of engine.old steps answers) engine.new) }
    ensures same { IsSame engine.old engine.new }
    ensures phase { OnOk result (engine.new.phase ≡ Phase.Ran) }
{
    engine.run_to_end(steps, answers, printer)
}

/// Searches from the start that an engine stands at, and writes each answer when it is found, and
/// then the last line.
fn print_all<W: Sink, M: Counting>(
    engine: &mut Engine<'_>,
    steps: u64,
    answers: u64,
    printer: &mut Printer<'_, W, M>,
) -> Result<Status, AnswerFault>
    requires run { MayRun engine.old.phase }
    requires answers { 0 < answers }
    ensures same_sink { printer.new.sink.ghost_name ≡ printer.old.sink.ghost_name }
    ensures same_meters { printer.new.meters.ghost_name ≡ printer.old.meters.ghost_name }
    ensures never_falls { W.faults printer.old.sink.now ≤ W.faults printer.new.sink.now }
    ensures wrote { Writes
        (report_in (printed_kinds printer.old.metered (M.kinds printer.old.meters.now))
        engine.old steps answers)
        (W.faults printer.old.sink.now) (W.faults printer.new.sink.now)
        (W.taken printer.old.sink.now) (W.taken printer.new.sink.now) result }
    ensures kinds { M.kinds printer.new.meters.now ≡ M.kinds printer.old.meters.now }
    ensures counted { MayCount result printer.old.metered
        (M.kinds printer.old.meters.now)
        (last_history (outcome_of engine.old steps answers).answers)
        (M.numbers printer.old.meters.now) (M.numbers printer.new.meters.now) }
{
    match print_answers(engine, steps, answers, printer) {
        Ok(ended) => {
            let last = report(printer.alloc, &engine.view(), &ended);
            say_made(printer.sink, last)
        }
        Err(fault) => Err(fault),
    }
}

/// The same over a sink and meters, for what a run asks.
fn print_for<W: Sink, M: Counting>(
    engine: &mut Engine<'_>,
    asked: Asked<'_>,
    sink: &mut W,
    meters: &mut M,
) -> Result<Status, AnswerFault>
    requires run { MayRun engine.old.phase }
    requires answers { 0 < asked.answers }
    ensures never_falls { W.faults sink.old ≤ W.faults sink.new }
    ensures wrote { Writes
        (report_in (printed_kinds asked.entry.meters (M.kinds meters.old))
        engine.old asked.entry.steps asked.entry.answers)
        (W.faults sink.old) (W.faults sink.new) (W.taken sink.old) (W.taken sink.new) result }
    ensures kinds { M.kinds meters.new ≡ M.kinds meters.old }
    ensures counted { MayCount result asked.entry.meters (M.kinds meters.old)
        (last_history (outcome_of engine.old asked.entry.steps asked.entry.answers).answers)
        (M.numbers meters.old) (M.numbers meters.new) }
{
    let mut printer = Printer {
        alloc: asked.alloc,
        sink,
        meters,
        metered: asked.meters,
    };
    print_all(engine, asked.steps, asked.answers, &mut printer)
}

/// Searches from the start that an engine stands at, and writes the counts of a sample with so many
/// processes, whose model has so many clauses, and then the last line.
fn count_for<W: Sink>(
    engine: &mut Engine<'_>,
    n: u64,
    clauses: u64,
    asked: Asked<'_>,
    sink: &mut W,
) -> Result<Status, AnswerFault>
    requires run { MayRun engine.old.phase }
    requires answers { 0 < asked.answers }
    requires clauses { clauses ≡ length engine.old.base }
    ensures never_falls { W.faults sink.old ≤ W.faults sink.new }
    ensures wrote { Writes (sample_in n engine.old asked.entry.steps asked.entry.answers)
        (W.faults sink.old) (W.faults sink.new) (W.taken sink.old) (W.taken sink.new) result }
{
    let mut tally = Tally { events: 0 };
    match engine.run_to_end(asked.steps, asked.answers, &mut tally) {
        Ok(ended) => {
            let counted = Counted {
                n,
                clauses,
                events: tally.events,
            };
            let made = sample_report(asked.alloc, &engine.view(), &ended, counted);
            say_made(sink, made)
        }
        Err(_) => Err(AnswerFault::NoMemory),
    }
}

/// The same for what a request asks: a run's answers, or a sample's counts.
fn search<W: Sink, M: Counting>(
    engine: &mut Engine<'_>,
    clauses: u64,
    asked: Asked<'_>,
    sink: &mut W,
    meters: &mut M,
) -> Result<Status, AnswerFault>
    requires run { MayRun engine.old.phase }
    requires answers { 0 < asked.answers }
    requires clauses { clauses ≡ length engine.old.base }
    ensures never_falls { W.faults sink.old ≤ W.faults sink.new }
    ensures wrote { Writes
        (reported_in (source_in asked.entry.source)
        (printed_kinds asked.entry.meters (M.kinds meters.old))
        engine.old asked.entry.steps asked.entry.answers)
        (W.faults sink.old) (W.faults sink.new) (W.taken sink.old) (W.taken sink.new) result }
    ensures kinds { M.kinds meters.new ≡ M.kinds meters.old }
    ensures counted { MayCount result asked.entry.meters (M.kinds meters.old)
        (reported_in (source_in asked.entry.source)
        (printed_kinds asked.entry.meters (M.kinds meters.old))
        engine.old asked.entry.steps asked.entry.answers).2
        (M.numbers meters.old) (M.numbers meters.new) }
{
    match asked.source {
        Source::Held(_) => print_for(engine, asked, sink, meters),
        Source::Sample(n) => count_for(engine, n, clauses, asked, sink),
    }
}

/// A model that was loaded.
struct Loaded<'a> {
    /// Its clauses and operators.
    base: &'a Base,
    /// The names in it.
    atoms: Atoms,
}

/// Answers a goal that was read, over a base.
fn answer_read<W: Sink, M: Counting>(
    loaded: Loaded<'_>,
    goal: &ReadTerm,
    asked: Asked<'_>,
    sink: &mut W,
    meters: &mut M,
) -> Result<Status, AnswerFault>
    requires base { AreNamed (length loaded.atoms) loaded.base.now.cells }
    requires goal { GoalFits loaded.atoms goal.now }
    requires answers { 0 < asked.answers }
    ensures never_falls { W.faults sink.old ≤ W.faults sink.new }
    ensures wrote { Writes
        (for_read (M.kinds meters.old) (model_in loaded.entry.atoms loaded.entry.base.now)
        (found_in loaded.entry.atoms goal.now) (request_in asked.entry))
        (W.faults sink.old) (W.faults sink.new) (W.taken sink.old) (W.taken sink.new) result }
    ensures kinds { M.kinds meters.new ≡ M.kinds meters.old }
    ensures counted { MayCount result asked.entry.meters (M.kinds meters.old)
        (for_read (M.kinds meters.old) (model_in loaded.entry.atoms loaded.entry.base.now)
        (found_in loaded.entry.atoms goal.now) (request_in asked.entry)).2
        (M.numbers meters.old) (M.numbers meters.new) }
{
    let Loaded { base, atoms } = loaded;
    match Engine::new(asked.alloc, base, atoms, goal) {
        Ok(mut engine) => search(&mut engine, base.count(), asked, sink, meters),
        Err(StartFault::Body) => say_made(sink, goal_refused(asked.alloc, goal.from, Cause::Body)),
        Err(StartFault::NoMemory) => Err(AnswerFault::NoMemory),
    }
}

/// Answers the text of a goal, over a base.
fn answer_goal<W: Sink, M: Counting>(
    loaded: Loaded<'_>,
    asked: Asked<'_>,
    sink: &mut W,
    meters: &mut M,
) -> Result<Status, AnswerFault>
    requires base { AreNamed (length loaded.atoms) loaded.base.now.cells }
    requires answers { 0 < asked.answers }
    ensures never_falls { W.faults sink.old ≤ W.faults sink.new }
    ensures wrote { Writes
        (for_goal (M.kinds meters.old) (model_in loaded.entry.atoms loaded.entry.base.now)
        (request_in asked.entry))
        (W.faults sink.old) (W.faults sink.new) (W.taken sink.old) (W.taken sink.new) result }
    ensures kinds { M.kinds meters.new ≡ M.kinds meters.old }
    ensures counted { MayCount result asked.entry.meters (M.kinds meters.old)
        (for_goal (M.kinds meters.old) (model_in loaded.entry.atoms loaded.entry.base.now)
        (request_in asked.entry)).2
        (M.numbers meters.old) (M.numbers meters.new) }
{
    let Loaded { base, mut atoms } = loaded;
    match read_goal(asked.alloc, asked.goal, base.ops(), &mut atoms) {
        Ok(term) => answer_read(Loaded { base, atoms }, &term, asked, sink, meters),
        Err(ReadFault::Refused { byte, cause }) => {
            say_made(sink, goal_refused(asked.alloc, byte, cause_of(cause)))
        }
        Err(ReadFault::NoMemory) => Err(AnswerFault::NoMemory),
    }
}

/// Answers the text of a model and of a goal: writes the text that goes with a status, and gives
/// the status. Each answer is written when it is found. Where meters are asked for, they count the
/// history of each answer, and their lines stand behind its own.
///
/// # Errors
/// `Write` where a write failed, behind a prefix of the text. `NoMemory` where memory was refused
/// before all of it was written.
pub fn answer<W: Sink, M: Counting>(
    text: &[u8],
    asked: Asked<'_>,
    sink: &mut W,
    meters: &mut M,
) -> Result<Status, AnswerFault>
    requires answers { 0 < asked.answers }
    ensures never_falls { W.faults sink.old ≤ W.faults sink.new }
    ensures wrote { Writes
        (for_model (M.kinds meters.old) (model text.now) (request_in asked.entry))
        (W.faults sink.old) (W.faults sink.new) (W.taken sink.old) (W.taken sink.new) result }
    ensures kinds { M.kinds meters.new ≡ M.kinds meters.old }
    ensures counted { MayCount result asked.entry.meters (M.kinds meters.old)
        (for_model (M.kinds meters.old) (model text.now) (request_in asked.entry)).2
        (M.numbers meters.old) (M.numbers meters.new) }
{
    let Ok(mut atoms) = Atoms::start(asked.alloc) else {
        return Err(AnswerFault::NoMemory);
    };
    match Base::load(asked.alloc, text, &mut atoms) {
        Ok(base) => answer_goal(Loaded { base: &base, atoms }, asked, sink, meters),
        Err(
            LoadFault::Refused {
                clause,
                byte,
                cause,
            },
        ) => say_made(sink, model_refused(asked.alloc, clause, byte, cause)),
        Err(LoadFault::NoMemory) => Err(AnswerFault::NoMemory),
    }
}
