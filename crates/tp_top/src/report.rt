//! The text that a run prints.

ghost use Rattle.std.specs.Prelude.{◌≡◌, ◌<◌, ◌≤◌, [], length, string_bytes, IfOk, IfErr, None};
ghost use Rattle.tp_meaning.specs.Search.{Fails};
ghost use Rattle.tp_engine.specs.Ended.{end_of, RaisedStands};
ghost use Rattle.tp_engine.specs.Told.{seen_in, IsSound};
ghost use Rattle.tp_parse.specs.Ops.{table_of};
ghost use Rattle.tp_parse.specs.Table.{Table};
ghost use Rattle.tp_write.specs.Text.{text as term_text};
ghost use Rattle.tp_top.specs.Report.{end_by, with_last};
ghost use Rattle.tp_top.specs.Expected.{Answer, alone};
ghost use Rattle.tp_top.specs.Replies.{counts_in, view_of};
ghost use Rattle.tp_top.specs.Sample.{sample_line, with_line};
ghost use Rattle.tp_top.specs.Written.{Writes};
ghost use Rattle.tp_engine.specs.declared.answers.AnswerFault.{AnswerFault};

use crate::program::Status;
use std::alloc::Global;
use tp_engine::{AnswerFault, AnswerView, Ended, How};
use tp_outside::{Sink, write_all};
use tp_report::{EndLine, end_text};
use tp_terms::{NoMemory, Ref, Text};
use tp_write::write_term;

/// A text that is fixed, or one that was made.
#[derive(Debug, Drop)]
pub enum Wording {
    /// A text of the program.
    Fixed(&'static str),
    /// A text that was made for this run.
    Made(String),
}

impl Wording {
    ghost use Rattle.tp_top.specs.Replies.{bytes_of};

    /// The bytes of the text.
    pub fn as_bytes(&self) -> &[u8]
        ensures { result.now ≡ bytes_of self.now }
    {
        match self {
            Wording::Fixed(text) => text.as_bytes(),
            Wording::Made(text) => text.as_bytes(),
        }
    }
}

/// A status, and the text that goes with it.
#[derive(Debug, Drop)]
pub struct Reply {
    /// The status.
    pub status: Status,
    /// The text.
    pub text: Wording,
}

impl Reply {
    /// A reply with a text that is fixed. Takes no memory.
    pub fn fixed(status: Status, text: &'static str) -> Reply
        ensures { view_of result ≡ alone status text.now }
    {
        Reply {
            status,
            text: Wording::Fixed(text),
        }
    }

    /// A reply with a text that was made.
    pub fn made(status: Status, text: String) -> Reply
        ensures { view_of result ≡ alone status (string_bytes text) }
    {
        Reply {
            status,
            text: Wording::Made(text),
        }
    }
}

/// The highest priority that a term may have.
const ANY_PRIORITY: u16 = 1200;

/// The written form of an error's term.
fn error_text(alloc: Global, view: &AnswerView<'_>, term: Ref) -> Result<Text, NoMemory>
    requires sound { IsSound view.now }
    requires stands { term.at < length view.now.plain.store.cells }
    ensures { IfOk result (λ written.
        written ≡ term_text (table_of view.now.ops) 1200 (seen_in view.now term)) }
{
    let mut text = String::new(alloc);
    write_term(
        alloc,
        view.cells(),
        term,
        view.store(),
        ANY_PRIORITY,
        view.ops(),
        view.atoms(),
        &mut text,
    )?;
    Ok(Text::new(text))
}

/// The status and the last line of a search that found no more answers.
fn no_more(ended: &Ended) -> (Status, EndLine)
    ensures { (ops : Table) → result ≡ end_by ops (counts_in ended.now) (Fails None) }
{
    let Ended {
        found,
        failed,
        deadlock,
        late,
        ..
    } = *ended;
    if found == 0 {
        let end = EndLine::No {
            failed,
            deadlock,
            late,
        };
        (Status::No, end)
    } else {
        let end = EndLine::NoMore {
            failed,
            deadlock,
            late,
        };
        (Status::Found, end)
    }
}

/// The status and the last line of a search.
fn end_of_search(
    alloc: Global,
    view: &AnswerView<'_>,
    ended: &Ended,
) -> Result<(Status, EndLine), NoMemory>
    requires sound { IsSound view.now }
    requires raised { RaisedStands view.now ended.now.how }
    ensures { IfOk result (λ end.
        end ≡ end_by (table_of view.now.ops) (counts_in ended.now)
        (end_of view.now ended.now.how)) }
{
    match ended.how {
        How::NoMore => Ok(no_more(ended)),
        How::Stopped => Ok((Status::Found, EndLine::Stopped)),
        How::Raised { term, clock } => {
            let term = error_text(alloc, view, term)?;
            Ok((Status::Raised, EndLine::Raised { term, clock }))
        }
        How::Budget => Ok((Status::Budget, EndLine::Budget)),
    }
}

/// The status of a search, with its last line.
pub fn report(alloc: Global, view: &AnswerView<'_>, ended: &Ended) -> Result<Reply, NoMemory>
    requires sound { IsSound view.now }
    requires raised { RaisedStands view.now ended.now.how }
    ensures { IfOk result (λ reply.
        view_of reply ≡ with_last [] ended.now.steps
        (end_by (table_of view.now.ops) (counts_in ended.now)
        (end_of view.now ended.now.how)) None) }
{
    let (status, end) = end_of_search(alloc, view, ended)?;
    let mut text = String::new(alloc);
    end_text(&end, ended.steps, &mut text)?;
    Ok(Reply::made(status, text))
}

/// What is counted of a sample.
#[derive(Clone, Copy)]
pub struct Counted {
    /// How many processes it has.
    pub n: u64,
    /// How many clauses its model has.
    pub clauses: u64,
    /// How many events the last answer has.
    pub events: u64,
}

/// The status of the search of a sample, with its line of counts and its last line.
pub fn sample_report(
    alloc: Global,
    view: &AnswerView<'_>,
    ended: &Ended,
    counted: Counted,
) -> Result<Reply, NoMemory>
    requires sound { IsSound view.now }
    requires raised { RaisedStands view.now ended.now.how }
    ensures { IfOk result (λ reply. view_of reply ≡ with_line
        (sample_line counted.n counted.clauses ended.now.found counted.events) ended.now.steps
        (end_by (table_of view.now.ops) (counts_in ended.now)
        (end_of view.now ended.now.how))) }
{
    let (status, end) = end_of_search(alloc, view, ended)?;
    let Counted { n, clauses, events } = counted;
    let answers = ended.found;
    let mut text = format!(in alloc;
        "sample {n}: clauses {clauses} answers {answers} events {events}\n"
    )?;
    end_text(&end, ended.steps, &mut text)?;
    Ok(Reply::made(status, text))
}

/// Writes a reply, and gives its status.
pub fn say<W: Sink>(sink: &mut W, reply: &Reply) -> Result<Status, AnswerFault>
    ensures never_falls { W.faults sink.old ≤ W.faults sink.new }
    ensures wrote { Writes (view_of reply.now) (W.faults sink.old) (W.faults sink.new)
        (W.taken sink.old) (W.taken sink.new) result }
    ensures fault { IfErr result (λ fault. fault ≡ AnswerFault.Write) }
{
    match write_all(sink, reply.text.as_bytes()) {
        Ok(()) => Ok(reply.status),
        Err(_) => Err(AnswerFault::Write),
    }
}

/// Writes a reply where there was memory to make it, and gives its status.
pub fn say_made<W: Sink>(sink: &mut W, made: Result<Reply, NoMemory>) -> Result<Status, AnswerFault>
    ensures never_falls { W.faults sink.old ≤ W.faults sink.new }
    ensures wrote { (a : Answer) → IfOk made (λ reply. view_of reply ≡ a) →
        0 < length a.1 →
        Writes a (W.faults sink.old) (W.faults sink.new) (W.taken sink.old) (W.taken sink.new)
        result }
{
    match made {
        Ok(reply) => say(sink, &reply),
        Err(NoMemory) => Err(AnswerFault::NoMemory),
    }
}
