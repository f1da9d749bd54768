//! Reports, with lines from outside.

ghost use Rattle.std.specs.Prelude.{◌≡◌, ◌<◌, length, pos, true, [], ◌∷◌, IfOk};
ghost use Rattle.std.specs.List.{AllByRecursion};
ghost use Rattle.tp_terms.specs.declared.cells.Cell.TheVariants as cell;
ghost use Rattle.tp_terms.specs.Events.{EventStands, KindStands};

use std::alloc::Global;
use std::test::Fail;
use tp_history::Events;
use tp_parse::Ops;
use tp_report::{EndLine, answer_text, end_text};
use tp_terms::symbols::{BIT_AND, MAIN, PLUS};
use tp_terms::{
    AtomId, Atoms, Binds, Cell, Cells, Event, EventKind, Limit, Named, NoMemory, Ref, Text,
};

/// The first cell.
const FIRST: Ref = Ref { at: 0 };

/// The second cell.
const SECOND: Ref = Ref { at: 1 };

/// The place of `It's` in the table of the tests.
const ODD: AtomId = AtomId { at: 103 };

/// Binds the variable 0 to the first cell, and nothing else.
struct OneBound;

impl Binds for OneBound {
    ghost use Rattle.std.specs.Prelude.{[], ◌∷◌};

    ghost bindings = { λ _. (0, record { at = 0 }) ∷ [] };

    fn bound(&self, number: u64) -> Option<Ref> {
        if number == 0 { Some(FIRST) } else { None }
    }
}

/// The cells of 1 and of the variable 1.
fn cells(alloc: Global) -> Result<Cells, NoMemory>
    ensures { IfOk result (λ cells. cells.items ≡ cell.Int (pos 1) ∷ cell.Var 1 ∷ []) }
{
    let mut cells = Cells::new(alloc);
    cells.push(Cell::Int(1))?;
    cells.push(Cell::Var(1))?;
    Ok(cells)
}

/// Whether there are so many names, cells and processes that the event stands.
fn stands(event: &Event, names: usize, cells: usize, processes: usize) -> bool
    ensures { result ≡ true → EventStands names cells processes event.now }
{
    event.pid < processes
        && match event.kind {
            EventKind::New { name, .. } => (name.at as usize) < names,
            EventKind::Send { message, to } => message.at < cells && to < processes,
            EventKind::Take(term) => term.at < cells,
            EventKind::Note(term) => term.at < cells,
            _ => true,
        }
}

/// Those of the events that stand.
fn standing(
    alloc: Global,
    events: &[Event],
    names: usize,
    cells: usize,
    processes: usize,
) -> Result<Events, NoMemory>
    ensures { IfOk result (AllByRecursion (EventStands names cells processes)) }
{
    let mut history = Events::new(alloc);
    for event in events {
        if stands(event, names, cells, processes) {
            history.push(*event)?;
        }
    }
    Ok(history)
}

/// An event.
fn event(time: i64, pid: usize, kind: EventKind) -> Event {
    Event { time, pid, kind }
}

/// A variable.
fn variable(alloc: Global, name: &str, number: u64) -> Result<Named, NoMemory> {
    Ok(Named {
        name: Text::new(String::from_str(alloc, name)?),
        number,
    })
}

/// Whether all names are in the table.
fn are_names(names: &[AtomId], atoms: &Atoms) -> bool
    ensures { result ≡ true → AllByRecursion (λ a. a.at < length atoms.now) names.now }
{
    for name in names {
        if name.at as usize >= atoms.len() {
            return false;
        }
    }
    true
}

/// The lines of an answer at the time 0, with those of the events that stand. The processes are
/// `main`, `+`, `/\` and
/// `It's`.
fn answer(
    alloc: Global,
    named: &[Named],
    events: &[Event],
    steps: u64,
) -> Result<String, NoMemory> {
    let mut atoms = Atoms::start(alloc)?;
    atoms.intern("It's")?;
    let names = [MAIN, PLUS, BIT_AND, ODD];
    let cells = cells(alloc)?;
    let ops = Ops::start(alloc)?;
    let history = standing(alloc, events, atoms.len(), cells.len(), names.len())?;
    let mut out = String::new(alloc);
    if are_names(&names, &atoms) {
        answer_text(
            alloc, 1, named, &cells, &OneBound, &history, &names, 0, steps, &ops, &atoms, &mut out,
        )?;
    }
    Ok(out)
}

#[test]
fn reports_answers(rt: HostRuntime) -> Result<(), Fail> {
    let alloc = rt.alloc();
    let start = event(0, 0, EventKind::Start);
    let end = event(0, 0, EventKind::End);
    let one = [variable(alloc, "X", 0)?];
    let out = answer(alloc, &one, &[start, end], 4)?;
    assert_eq!(rt;
        out.as_str(),
        "answer 1\nX = 1\n0 main: start\n0 main: end\nend 0 steps 4\n"
    );
    let two = [variable(alloc, "X", 0)?, variable(alloc, "_Y", 1)?];
    let made = EventKind::New {
        name: PLUS,
        start: 0,
        end: Limit::Inf,
    };
    let made_late = EventKind::New {
        name: ODD,
        start: 3,
        end: Limit::At(7),
    };
    let sent = EventKind::Send {
        message: SECOND,
        to: 2,
    };
    let all = [
        start,
        event(0, 0, made),
        event(0, 0, made_late),
        event(0, 0, sent),
        event(0, 1, EventKind::Start),
        event(0, 1, EventKind::Hold(5)),
        event(0, 2, EventKind::Take(SECOND)),
        event(3, 3, EventKind::Note(FIRST)),
        event(5, 1, EventKind::End),
    ];
    let out = answer(alloc, &two, &all, 21)?;
    assert_eq!(rt;
        out.as_str(),
        "answer 1\nX = 1\n_Y = _1\n\
         0 main: start\n0 main: new(+,0,inf)\n0 main: new('It\\'s',3,7)\n0 main: send(_1,/\\)\n\
         0 '+': start\n0 '+': hold(5)\n0 '/\\\\': take(_1)\n3 'It\\'s': note(1)\n\
         5 '+': end\nend 0 steps 21\n"
    );
    Ok(())
}

#[test]
fn reports_ends(rt: HostRuntime) -> Result<(), Fail> {
    let alloc = rt.alloc();
    let term = Text::new(String::from_str(alloc, "error(existence_error(procedure,q / 0),main)")?);
    for (end, steps, wanted) in [
        (EndLine::Stopped, 4, "stopped after 4 steps\n"),
        (
            EndLine::NoMore {
                failed: 0,
                deadlock: 0,
                late: 0,
            },
            6,
            "no more after 6 steps: 0 failed 0 deadlock 0 late\n",
        ),
        (
            EndLine::No {
                failed: 1,
                deadlock: 0,
                late: 0,
            },
            2,
            "no after 2 steps: 1 failed 0 deadlock 0 late\n",
        ),
        (
            EndLine::No {
                failed: 0,
                deadlock: 1,
                late: 0,
            },
            8,
            "no after 8 steps: 0 failed 1 deadlock 0 late\n",
        ),
        (
            EndLine::No {
                failed: 0,
                deadlock: 0,
                late: 1,
            },
            8,
            "no after 8 steps: 0 failed 0 deadlock 1 late\n",
        ),
        (
            EndLine::Raised { term, clock: 0 },
            2,
            "error error(existence_error(procedure,q / 0),main) at 0 after 2 steps\n",
        ),
        (EndLine::Budget, 5, "budget after 5 steps\n"),
    ] {
        let mut out = String::new(alloc);
        end_text(&end, steps, &mut out)?;
        assert_eq!(rt; out.as_str(), wanted);
    }
    Ok(())
}
