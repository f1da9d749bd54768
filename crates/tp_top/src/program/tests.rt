//! Runs with ample memory: what is printed, and how they end.
ghost use Rattle.std.specs.Prelude.{◌<◌};

use crate::boxed::take_all;
use crate::program::{Status, run};
use crate::sample::sample_text;
use std::alloc::{AllocError, Global};
use std::test::Fail;
use tp_meters::{EventMeter, EventView, MailMeter, Meter, ProcMeter, TimeMeter};
use tp_outside::{MemShelf, MemSink};

/// What a run over memory left.
#[derive(Drop)]
struct Left {
    status: Status,
    taken: Vec<u8>,
    read_faults: u64,
    write_faults: u64,
    numbers: Vec<u64>,
}

/// How a shelf or a sink cuts what it gives or takes, and the calls that fail.
#[derive(Clone, Copy)]
struct Cuts {
    piece: usize,
    fails: &'static [u64],
}

const SMOOTH: Cuts = Cuts {
    piece: 65_536,
    fails: &[],
};

const SECOND: Cuts = Cuts {
    piece: 1,
    fails: &[2],
};

const THIRD: Cuts = Cuts {
    piece: 1,
    fails: &[3],
};

const FIFTH: Cuts = Cuts {
    piece: 1,
    fails: &[5],
};

/// Adds the numbers that a meter tells.
fn add_numbers(meter: &Box<dyn Meter>, numbers: &mut Vec<u64>) -> Result<(), AllocError> {
    for at in 0..7 {
        if let Some(number) = meter.number(at) {
            numbers.push(number)?;
        }
    }
    Ok(())
}

/// What the meters have counted before a run.
const SENT: EventView = EventView {
    time: 3,
    kind: 3,
    amount: 0,
};

/// A run with these words, over a shelf that holds a model under `m`, and with a meter of each
/// kind, which has counted a Send.
fn run_over(
    alloc: Global,
    words: &[&str],
    model: &[u8],
    reading: Cuts,
    writing: Cuts,
) -> Result<Left, Fail> {
    if reading.piece == 0 || writing.piece == 0 {
        return Err(Fail::new("a piece has a byte"));
    }
    let mut given = Vec::new(alloc);
    for word in words {
        given.push(String::from_str(alloc, word)?)?;
    }
    let name = String::from_str(alloc, "m")?;
    let files = vec![in alloc; (name, Vec::from_slice(alloc, model)?)]?;
    let mut shelf = MemShelf::new(files, reading.piece, Vec::from_slice(alloc, reading.fails)?);
    let fails = Vec::from_slice(alloc, writing.fails)?;
    let Ok(mut sink) = MemSink::new(alloc, 1_000_000, writing.piece, fails) else {
        return Err(Fail::from(AllocError));
    };
    let mut meters: Vec<Box<dyn Meter>> = Vec::new(alloc);
    meters.push(Box::new(alloc, EventMeter::new())?)?;
    meters.push(Box::new(alloc, TimeMeter::new())?)?;
    meters.push(Box::new(alloc, MailMeter::new())?)?;
    meters.push(Box::new(alloc, ProcMeter::new())?)?;
    take_all(&mut meters, &SENT);
    let status = run(alloc, &given, &mut shelf, &mut sink, &mut meters);
    let mut numbers = Vec::new(alloc);
    for meter in meters.iter() {
        add_numbers(meter, &mut numbers)?;
    }
    Ok(Left {
        status,
        taken: Vec::from_slice(alloc, sink.taken())?,
        read_faults: shelf.faults(),
        write_faults: sink.faults(),
        numbers,
    })
}

/// The model of two facts.
const P: &[u8] = b"p(1). p(2).";

/// The lines of the first answer of the goal `p(X)` over them.
const FIRST: &str = "answer 1\nX = 1\n0 main: start\n0 main: end\nend 0 steps 4\n";

/// The line of a model that isn't held, or whose reading failed.
const READ_FAULT: &str = "read fault\n";

/// What a sample with one process prints.
const SAMPLED: &str = "sample 1: clauses 7 answers 1 events 2\nstopped after 20 steps\n";

/// The lines of the meters of an answer of `main` alone, and their numbers.
const LINES: &str = "meter events 0 1 0 0 0 0 1\nmeter time 0 0 0\nmeter mail 0 0 0\n\
    meter procs 0 1\n";

const COUNTED: [u64; 15] = [0, 1, 0, 0, 0, 0, 1, 0, 0, 0, 0, 0, 0, 0, 1];

/// The numbers of meters that have counted the Send alone.
const BEFORE: [u64; 15] = [0, 0, 0, 1, 0, 0, 0, 3, 0, 0, 1, 0, 1, 0, 0];

/// The model of a sample with two processes.
const PAIR: &str = "top :- first.\ntop.\nfirst :- s1, hold(1), !, fail.\n\
    s1 :- c(_), new(w,p1,0,inf), s2.\ns2 :- c(_), new(w,p2,0,inf).\n\
    c(1).\nc(2).\nw :- hold(2).\n";

#[test]
fn worked_rows(rt: HostRuntime) -> Result<(), Fail> {
    let alloc = rt.alloc();
    let answered = format!(in alloc; "{FIRST}stopped after 4 steps\n")?;
    for (words, reading, writing, number, text, read_faults, write_faults) in [
        (["m", "p(X)"], SMOOTH, SMOOTH, 0, answered.as_str(), 0, 0),
        (["m", "p(X)"], THIRD, SMOOTH, 7, READ_FAULT, 1, 0),
        (["m", "p(X)"], SMOOTH, SECOND, 8, "a", 0, 1),
        (["x", "p(X)"], SMOOTH, SMOOTH, 7, READ_FAULT, 0, 0),
        (["x", "p(X)"], SMOOTH, FIFTH, 8, "read", 0, 1),
        (["--sample", "1"], SECOND, SMOOTH, 0, SAMPLED, 0, 0),
    ] {
        let left = run_over(alloc, words.as_slice(), P, reading, writing)?;
        assert_eq!(rt; left.status.number(), number, "with {words:?}");
        assert_eq!(rt; left.taken.as_slice(), text.as_bytes(), "with {words:?}");
        assert_eq!(rt; left.read_faults, read_faults, "with {words:?}");
        assert_eq!(rt; left.write_faults, write_faults, "with {words:?}");
        assert_eq!(rt;
            left.numbers.as_slice(),
            BEFORE.as_slice(),
            "with {words:?}"
        );
    }
    let both = format!(in alloc;
        "{FIRST}{LINES}answer 2\nX = 2\n0 main: start\n0 main: end\n\
        end 0 steps 6\n{LINES}stopped after 6 steps\n"
    )?;
    let none = "no after 2 steps: 1 failed 0 deadlock 0 late\n";
    for (goal, text, numbers) in [("p(X)", both.as_str(), COUNTED), ("p(3)", none, BEFORE)] {
        let words = ["m", goal, "--answers=2", "--meters"];
        let left = run_over(alloc, words.as_slice(), P, SMOOTH, SMOOTH)?;
        assert_eq!(rt; left.taken.as_slice(), text.as_bytes(), "for {goal}");
        assert_eq!(rt; left.numbers.as_slice(), numbers.as_slice(), "for {goal}");
    }
    assert_eq!(rt; sample_text(alloc, 2)?.as_str(), PAIR);
    Ok(())
}

#[test]
fn numbers_the_statuses(rt: HostRuntime) {
    for (status, number) in [
        (Status::Found, 0),
        (Status::No, 1),
        (Status::Raised, 2),
        (Status::Budget, 3),
        (Status::Usage, 4),
        (Status::Model, 5),
        (Status::Goal, 6),
        (Status::Read, 7),
        (Status::Write, 8),
        (Status::Memory, 9),
    ] {
        assert_eq!(rt; status.number(), number);
    }
}
