//! What the terms and the names of an answer are written from.

ghost use Rattle.std.specs.Prelude.{◌≡◌, ◌<◌, ◌++◌, length, chars, codes};
ghost use Rattle.std.specs.List.{AllByRecursion};
ghost use Rattle.std.specs.Fmt.{signed_decimal};
ghost use Rattle.tp_terms.specs.Added.{Adds};
ghost use Rattle.tp_terms.specs.Shown.{name_at};
ghost use Rattle.tp_report.specs.Lines.{term_text, value_text, words_text};
ghost use Rattle.tp_report.specs.Lines.{event_text, events_text, variable_text, variables_text};
ghost use Rattle.tp_report.specs.Pieces.{piece_text};
ghost use Rattle.tp_report.specs.Report.{head_text, limit_text};
ghost use Rattle.tp_report.specs.Seen.{HasEvent, HasKind, Stands, processes_seen, seen_by};

use crate::pieces::{Piece, add_pieces};
use std::alloc::Global;
use tp_history::Events;
use tp_parse::Ops;
use tp_terms::{
    AtomId, Atoms, Binds, Cells, Event, EventKind, Limit, Named, NoMemory, Ref, push_text,
};
use tp_write::write_term;

/// The largest priority of a term behind `=`.
const OPERAND: u16 = 699;

/// The largest priority of an argument.
const ARGUMENT: u16 = 999;

/// Cells under bindings, the names of the processes, operators, and the table of names.
#[derive(Drop)]
pub struct Scene<'a, B: Binds> {
    pub alloc: Global,
    pub cells: &'a Cells,
    pub binds: &'a B,
    pub processes: &'a [AtomId],
    pub ops: &'a Ops,
    pub atoms: &'a Atoms,
}

impl<B: Binds> Scene<'_, B> {
    /// Adds the term of a place, where the largest priority is `max`.
    fn add_term(&self, place: Ref, max: u16, out: &mut String) -> Result<(), NoMemory>
        requires place { place.at < length self.now.cells.now.items }
        requires stands { Stands (seen_by B.bindings self.now) }
        ensures added { Adds out.old out.new result
            (term_text (seen_by B.bindings self.now) max place.at) }
    {
        write_term(
            self.alloc, self.cells, place, self.binds, max, self.ops, self.atoms, out,
        )
    }

    /// Adds the term of a variable of the goal.
    fn add_value(&self, number: u64, out: &mut String) -> Result<(), NoMemory>
        requires { Stands (seen_by B.bindings self.now) }
        ensures added { Adds out.old out.new result
            (value_text (seen_by B.bindings self.now) number) }
    {
        match self.binds.bound(number) {
            Some(place) => self.add_term(place, OPERAND, out),
            None => add_pieces(&[Piece::Text("_"), Piece::Count(number)], out),
        }
    }

    /// The name of a process.
    fn process_name(&self, pid: usize) -> &str
        requires process { pid < length self.now.processes.now }
        requires stands { Stands (seen_by B.bindings self.now) }
        ensures { chars result.now ≡ name_at (processes_seen (seen_by B.bindings self.now)) pid }
    {
        self.atoms.name(self.processes[pid])
    }

    /// Adds the words of an event that made a process.
    fn add_new(
        &self,
        name: AtomId,
        start: i64,
        end: Limit,
        out: &mut String,
    ) -> Result<(), NoMemory>
        requires { name.at < length self.now.atoms.now }
        ensures added { Adds out.old out.new result
            (words_text (seen_by B.bindings self.now) (EventKind.New name start end)) }
    {
        let name = self.atoms.name(name);
        add_pieces(
            &[
                Piece::Text("new("),
                Piece::Name(name),
                Piece::Text(","),
                Piece::Integer(start),
                Piece::Text(","),
                limit_piece(end),
                Piece::Text(")"),
            ],
            out,
        )
    }

    /// Adds the words of an event that sent a message.
    fn add_send(&self, message: Ref, to: usize, out: &mut String) -> Result<(), NoMemory>
        requires message { message.at < length self.now.cells.now.items }
        requires process { to < length self.now.processes.now }
        requires stands { Stands (seen_by B.bindings self.now) }
        ensures added { Adds out.old out.new result
            (words_text (seen_by B.bindings self.now) (EventKind.Send message to)) }
    {
        let name = self.process_name(to);
        push_text("send(", out)?;
        self.add_term(message, ARGUMENT, out)?;
        add_pieces(
            &[Piece::Text(","), Piece::Name(name), Piece::Text(")")],
            out,
        )
    }

    /// Adds the words of an event with one term, of which these are the first.
    fn add_about(&self, words: &str, term: Ref, out: &mut String) -> Result<(), NoMemory>
        requires place { term.at < length self.now.cells.now.items }
        requires stands { Stands (seen_by B.bindings self.now) }
        ensures added { Adds out.old out.new result
            (chars words.now
            ++ (term_text (seen_by B.bindings self.now) 999 term.at
            ++ codes ")")) }
    {
        push_text(words, out)?;
        self.add_term(term, ARGUMENT, out)?;
        push_text(")", out)
    }

    /// Adds the words of an event.
    fn add_kind(&self, kind: EventKind, out: &mut String) -> Result<(), NoMemory>
        requires kind { HasKind (seen_by B.bindings self.now) kind }
        requires stands { Stands (seen_by B.bindings self.now) }
        ensures added { Adds out.old out.new result
            (words_text (seen_by B.bindings self.now) kind) }
    {
        match kind {
            EventKind::New { name, start, end } => self.add_new(name, start, end, out),
            EventKind::Start => push_text("start", out),
            EventKind::Hold(duration) => add_hold(duration, out),
            EventKind::Send { message, to } => self.add_send(message, to, out),
            EventKind::Take(message) => self.add_about("take(", message, out),
            EventKind::Note(term) => self.add_about("note(", term, out),
            EventKind::End => push_text("end", out),
        }
    }

    /// Adds the line of an event.
    fn add_event(&self, event: Event, out: &mut String) -> Result<(), NoMemory>
        requires event { HasEvent (seen_by B.bindings self.now) event }
        requires stands { Stands (seen_by B.bindings self.now) }
        ensures added { Adds out.old out.new result
            (event_text (seen_by B.bindings self.now) event) }
    {
        let doer = self.process_name(event.pid);
        add_head(event.time, doer, out)?;
        self.add_kind(event.kind, out)?;
        push_text("\n", out)
    }

    /// Adds the line of a named variable of the goal.
    fn add_variable(&self, variable: &Named, out: &mut String) -> Result<(), NoMemory>
        requires { Stands (seen_by B.bindings self.now) }
        ensures added { Adds out.old out.new result
            (variable_text (seen_by B.bindings self.now) variable.now) }
    {
        add_pieces(
            &[Piece::Text(variable.name.as_str()), Piece::Text(" = ")],
            out,
        )?;
        self.add_value(variable.number, out)?;
        push_text("\n", out)
    }

    /// Adds the lines of the named variables of the goal.
    pub fn add_variables(&self, named: &[Named], out: &mut String) -> Result<(), NoMemory>
        requires { Stands (seen_by B.bindings self.now) }
        ensures added { Adds out.old out.new result
            (variables_text (seen_by B.bindings self.now) named.now) }
    {
        for variable in named {
            self.add_variable(variable, out)?;
        }
        Ok(())
    }

    /// Adds the lines of the events.
    pub fn add_events(&self, events: &Events, out: &mut String) -> Result<(), NoMemory>
        requires events { AllByRecursion (HasEvent (seen_by B.bindings self.now)) events.now }
        requires stands { Stands (seen_by B.bindings self.now) }
        ensures added { Adds out.old out.new result
            (events_text (seen_by B.bindings self.now) events.now) }
    {
        for at in 0..events.len() {
            if let Some(event) = events.get(at) {
                self.add_event(event, out)?;
            }
        }
        Ok(())
    }
}

/// The end time of a process that was made.
fn limit_piece(end: Limit) -> Piece<'static>
    ensures { piece_text result ≡ limit_text end }
{
    match end {
        Limit::At(time) => Piece::Integer(time),
        Limit::Inf => Piece::Text("inf"),
    }
}

/// Adds the time of an event and the process that did it.
fn add_head(time: i64, doer: &str, out: &mut String) -> Result<(), NoMemory>
    ensures added { Adds out.old out.new result (head_text time (chars doer.now)) }
{
    add_pieces(
        &[
            Piece::Integer(time),
            Piece::Text(" "),
            Piece::Doer(doer),
            Piece::Text(": "),
        ],
        out,
    )
}

/// Adds the words of an event that holds for so long.
fn add_hold(duration: i64, out: &mut String) -> Result<(), NoMemory>
    ensures added { Adds out.old out.new result
        (codes "hold(" ++ (signed_decimal duration ++ codes ")")) }
{
    add_pieces(
        &[
            Piece::Text("hold("),
            Piece::Integer(duration),
            Piece::Text(")"),
        ],
        out,
    )
}
