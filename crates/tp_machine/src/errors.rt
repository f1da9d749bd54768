//! Error terms.

ghost use Rattle.std.specs.Prelude.{◌≡◌, ◌<◌, ◌+◌, ℤ, pos, List, length, IfOk};
ghost use Rattle.tp_terms.specs.Term.{Name, Int, atom};
ghost use Rattle.tp_terms.specs.Names.{IsTable};
ghost use Rattle.tp_terms.specs.Shown.{AreNamed, IsNamed, StandsBefore, name_at, shows, shown_from};
ghost use Rattle.tp_store.specs.Contents.{IsNumbered};
ghost use Rattle.tp_meaning.specs.Checks.{unbound, type_error, domain_error, evaluation_error};
ghost use Rattle.tp_meaning.specs.Checks.{representation_error, existence_error, permission_error};
ghost use Rattle.tp_meaning.specs.Checks.{indicator, error};
ghost use Rattle.tp_machine.specs.Built.{Built};
ghost use Rattle.tp_machine.specs.Causes.{CauseStands, HasCulprit, domain_word, kind_term};
ghost use Rattle.tp_machine.specs.Causes.{kind_of_word, kind_with, wrong_domain};

use tp_store::Store;
use tp_terms::symbols::{
    ATOM, CALLABLE, CREATE, DOMAIN_ERROR, EMPTY_LIST, END_TIME, ERROR, EVALUATION_ERROR,
    EXISTENCE_ERROR, INSTANTIATION_ERROR, INT_OVERFLOW, INTEGER, LIST, MAX_ARITY,
    NOT_LESS_THAN_ZERO, PERMISSION_ERROR, PROCEDURE, PROCESS, PROCESS_NAME, REPRESENTATION_ERROR,
    SLASH, START_TIME, TYPE_ERROR,
};
use tp_terms::{AtomId, Cell, NoMemory, Ref};

/// What a time may be.
#[derive(Clone, Copy, Debug)]
pub enum Domain {
    /// A process holds for no less than 0.
    Duration,
    /// A process starts no sooner than now.
    StartTime,
    /// A process ends no sooner than it starts.
    EndTime,
}

/// Why an error is raised.
#[derive(Clone, Copy, Debug)]
pub enum Cause {
    /// A goal is a variable, or an argument that must be bound is.
    Unbound,
    /// A goal is an integer.
    Number(i64),
    /// A goal has no clauses, by its name and number of arguments.
    Unknown(AtomId, u8),
    /// The term of a place is entered as a goal, and has no body.
    NotCallable(Ref),
    /// The term of a place is no integer, where one is wanted.
    NotInteger(Ref),
    /// A compound would have more than 255 arguments.
    TooManyArguments,
    /// The term of a place is no atom, where the name of a process is wanted.
    NotAtom(Ref),
    /// The term of a place is no list, where the names of processes are wanted.
    NotList(Ref),
    /// No process has the name that stands at a place.
    NoProcess(Ref),
    /// The name of a process would be `[]`.
    EmptyName,
    /// The term of a place is the name of a process already.
    NameTaken(Ref),
    /// A time isn't what it may be.
    OutOfDomain(Domain, i64),
    /// A time would be past 64 bits.
    Overflow,
    /// A place shows the kind of the error.
    Kind(Ref),
}

/// A compound of the two arguments that were placed from `first` on.
fn pair(name: AtomId, first: Ref) -> Cell
    ensures { result ≡ Cell.Comp name first 2 }
{
    Cell::Comp {
        name,
        first,
        count: 2,
    }
}

/// A compound of the argument that was placed at `first`.
fn single(name: AtomId, first: Ref) -> Cell
    ensures { result ≡ Cell.Comp name first 1 }
{
    Cell::Comp {
        name,
        first,
        count: 1,
    }
}

/// A compound of the three arguments that were placed from `first` on.
fn triple(name: AtomId, first: Ref) -> Cell
    ensures { result ≡ Cell.Comp name first 3 }
{
    Cell::Comp {
        name,
        first,
        count: 3,
    }
}

/// An integer.
fn integer(value: i64) -> Cell
    ensures { result ≡ Cell.Int value }
{
    Cell::Int(value)
}

/// A number of arguments, as an integer.
fn number(count: u8) -> Cell
    ensures { result ≡ Cell.Int (pos count) }
{
    Cell::Int(count as i64)
}

/// The kind of the error that a predicate without clauses raises.
fn unknown_kind(store: &mut Store, name: AtomId, count: u8) -> Result<Ref, NoMemory>
    ensures last { IfOk result (λ kind. kind.at + 1 ≡ length store.new.cells) }
    ensures built { IfOk result (λ kind. (names : List Name) → IsTable names →
        AreNamed (length names) store.old.cells → name.at < length names →
        Built names store.old store.new kind.at
        (existence_error "procedure" (indicator (name_at names name.at) count))) }
{
    let args = store.place(Cell::Atom(name))?;
    store.place(number(count))?;
    let what = store.place(Cell::Atom(PROCEDURE))?;
    store.place(pair(SLASH, args))?;
    let kind = store.place(pair(EXISTENCE_ERROR, what))?;
    Ok(kind)
}

/// The kind of the error that a variable as a goal raises.
fn unbound_kind(store: &mut Store) -> Result<Ref, NoMemory>
    ensures last { IfOk result (λ kind. kind.at + 1 ≡ length store.new.cells) }
    ensures built { IfOk result (λ kind. (names : List Name) → IsTable names →
        AreNamed (length names) store.old.cells →
        Built names store.old store.new kind.at unbound) }
{
    let kind = store.place(Cell::Atom(INSTANTIATION_ERROR))?;
    Ok(kind)
}

/// A kind of error with what is wanted and the term of a cell that isn't so.
fn culprit_kind(
    store: &mut Store,
    error: AtomId,
    wanted: AtomId,
    culprit: Cell,
) -> Result<Ref, NoMemory>
    requires before { StandsBefore (length store.old.cells) culprit }
    requires numbered { IsNumbered store.old.vars culprit }
    ensures last { IfOk result (λ kind. kind.at + 1 ≡ length store.new.cells) }
    ensures built { IfOk result (λ kind. (names : List Name) → IsTable names →
        AreNamed (length names) store.old.cells → IsNamed (length names) culprit →
        error.at < length names → wanted.at < length names →
        Built names store.old store.new kind.at
        (kind_with (name_at names error.at) (name_at names wanted.at)
        (shown_from names store.old.cells culprit))) }
{
    let what = store.place(Cell::Atom(wanted))?;
    store.place(culprit)?;
    let kind = store.place(pair(error, what))?;
    Ok(kind)
}

/// A kind of error with a word.
fn word_kind(store: &mut Store, error: AtomId, word: AtomId) -> Result<Ref, NoMemory>
    ensures last { IfOk result (λ kind. kind.at + 1 ≡ length store.new.cells) }
    ensures built { IfOk result (λ kind. (names : List Name) → IsTable names →
        AreNamed (length names) store.old.cells → error.at < length names →
        word.at < length names → Built names store.old store.new kind.at
        (kind_of_word (name_at names error.at) (name_at names word.at))) }
{
    let what = store.place(Cell::Atom(word))?;
    let kind = store.place(single(error, what))?;
    Ok(kind)
}

/// The kind of the error that an integer as a goal raises.
fn number_kind(store: &mut Store, value: i64) -> Result<Ref, NoMemory>
    ensures last { IfOk result (λ kind. kind.at + 1 ≡ length store.new.cells) }
    ensures built { IfOk result (λ kind. (names : List Name) → IsTable names →
        AreNamed (length names) store.old.cells →
        Built names store.old store.new kind.at (type_error "callable" (Int value))) }
{
    let kind = culprit_kind(store, TYPE_ERROR, CALLABLE, integer(value))?;
    Ok(kind)
}

/// The kind of error with what is wanted and the term of a place that isn't so.
fn term_kind(store: &mut Store, error: AtomId, wanted: AtomId, term: Ref) -> Result<Ref, NoMemory>
    requires { term.at < length store.old.cells }
    ensures last { IfOk result (λ kind. kind.at + 1 ≡ length store.new.cells) }
    ensures built { IfOk result (λ kind. (names : List Name) → IsTable names →
        AreNamed (length names) store.old.cells → error.at < length names →
        wanted.at < length names → Built names store.old store.new kind.at
        (kind_with (name_at names error.at) (name_at names wanted.at)
        (shows names store.old.cells term.at))) }
{
    let culprit = store.cells().get(term);
    let kind = culprit_kind(store, error, wanted, culprit)?;
    Ok(kind)
}

/// The kind of the error that too many arguments raise.
fn arity_kind(store: &mut Store) -> Result<Ref, NoMemory>
    ensures last { IfOk result (λ kind. kind.at + 1 ≡ length store.new.cells) }
    ensures built { IfOk result (λ kind. (names : List Name) → IsTable names →
        AreNamed (length names) store.old.cells →
        Built names store.old store.new kind.at (representation_error "max_arity")) }
{
    let kind = word_kind(store, REPRESENTATION_ERROR, MAX_ARITY)?;
    Ok(kind)
}

/// The kind of the error that a time past 64 bits raises.
fn overflow_kind(store: &mut Store) -> Result<Ref, NoMemory>
    ensures last { IfOk result (λ kind. kind.at + 1 ≡ length store.new.cells) }
    ensures built { IfOk result (λ kind. (names : List Name) → IsTable names →
        AreNamed (length names) store.old.cells →
        Built names store.old store.new kind.at (evaluation_error "int_overflow")) }
{
    let kind = word_kind(store, EVALUATION_ERROR, INT_OVERFLOW)?;
    Ok(kind)
}

/// The kind of the error that `[]` as the name of a process raises.
fn empty_kind(store: &mut Store) -> Result<Ref, NoMemory>
    ensures last { IfOk result (λ kind. kind.at + 1 ≡ length store.new.cells) }
    ensures built { IfOk result (λ kind. (names : List Name) → IsTable names →
        AreNamed (length names) store.old.cells →
        Built names store.old store.new kind.at (domain_error "process_name" (atom "[]"))) }
{
    let kind = culprit_kind(store, DOMAIN_ERROR, PROCESS_NAME, Cell::Atom(EMPTY_LIST))?;
    Ok(kind)
}

/// The name of a domain.
fn domain_name(domain: Domain) -> AtomId
    ensures within { (names : List Name) → IsTable names → result.at < length names }
    ensures name { (names : List Name) → IsTable names →
        name_at names result.at ≡ domain_word domain }
{
    match domain {
        Domain::Duration => NOT_LESS_THAN_ZERO,
        Domain::StartTime => START_TIME,
        Domain::EndTime => END_TIME,
    }
}

/// The kind of the error that a time raises where it isn't what it may be.
fn domain_kind(store: &mut Store, domain: Domain, value: i64) -> Result<Ref, NoMemory>
    ensures last { IfOk result (λ kind. kind.at + 1 ≡ length store.new.cells) }
    ensures built { IfOk result (λ kind. (names : List Name) → IsTable names →
        AreNamed (length names) store.old.cells →
        Built names store.old store.new kind.at (wrong_domain (domain_word domain) (Int value))) }
{
    let kind = culprit_kind(store, DOMAIN_ERROR, domain_name(domain), integer(value))?;
    Ok(kind)
}

/// The kind of the error that the term of a place raises where it is the name of a process already.
fn taken_kind(store: &mut Store, name: Ref) -> Result<Ref, NoMemory>
    requires { name.at < length store.old.cells }
    ensures last { IfOk result (λ kind. kind.at + 1 ≡ length store.new.cells) }
    ensures built { IfOk result (λ kind. (names : List Name) → IsTable names →
        AreNamed (length names) store.old.cells →
        Built names store.old store.new kind.at
        (permission_error "create" "process" (shows names store.old.cells name.at))) }
{
    let culprit = store.cells().get(name);
    let act = store.place(Cell::Atom(CREATE))?;
    store.place(Cell::Atom(PROCESS))?;
    store.place(culprit)?;
    let kind = store.place(triple(PERMISSION_ERROR, act))?;
    Ok(kind)
}

/// The kind of error that a place shows, at the last place.
fn placed_again(store: &mut Store, kind: Ref) -> Result<Ref, NoMemory>
    requires { kind.at < length store.old.cells }
    ensures last { IfOk result (λ last. last.at + 1 ≡ length store.new.cells) }
    ensures built { IfOk result (λ last. (names : List Name) → IsTable names →
        AreNamed (length names) store.old.cells →
        Built names store.old store.new last.at (shows names store.old.cells kind.at)) }
{
    let cell = store.cells().get(kind);
    let last = store.place(cell)?;
    Ok(last)
}

/// An error of a kind whose place is the last, with the name of a process.
fn error(store: &mut Store, kind: Ref, process: AtomId) -> Result<Ref, NoMemory>
    requires { kind.at + 1 ≡ length store.old.cells }
    ensures { IfOk result (λ place. (names : List Name) → IsTable names →
        AreNamed (length names) store.old.cells → process.at < length names →
        Built names store.old store.new place.at
        (error (shows names store.old.cells kind.at) (name_at names process.at))) }
{
    store.place(Cell::Atom(process))?;
    let place = store.place(pair(ERROR, kind))?;
    Ok(place)
}

/// The kind of an error, at the last place.
fn kind_of(store: &mut Store, cause: Cause) -> Result<Ref, NoMemory>
    requires { HasCulprit store.old.cells cause }
    ensures last { IfOk result (λ kind. kind.at + 1 ≡ length store.new.cells) }
    ensures built { IfOk result (λ kind. (names : List Name) → IsTable names →
        AreNamed (length names) store.old.cells → CauseStands names cause →
        Built names store.old store.new kind.at (kind_term names store.old.cells cause)) }
{
    match cause {
        Cause::Unbound => unbound_kind(store),
        Cause::Number(value) => number_kind(store, value),
        Cause::Unknown(name, count) => unknown_kind(store, name, count),
        Cause::NotCallable(goal) => term_kind(store, TYPE_ERROR, CALLABLE, goal),
        Cause::NotInteger(term) => term_kind(store, TYPE_ERROR, INTEGER, term),
        Cause::TooManyArguments => arity_kind(store),
        Cause::NotAtom(term) => term_kind(store, TYPE_ERROR, ATOM, term),
        Cause::NotList(term) => term_kind(store, TYPE_ERROR, LIST, term),
        Cause::NoProcess(name) => term_kind(store, EXISTENCE_ERROR, PROCESS, name),
        Cause::EmptyName => empty_kind(store),
        Cause::NameTaken(name) => taken_kind(store, name),
        Cause::OutOfDomain(domain, value) => domain_kind(store, domain, value),
        Cause::Overflow => overflow_kind(store),
        Cause::Kind(kind) => placed_again(store, kind),
    }
}

/// The place of an error, as a process raises it.
pub fn raised(store: &mut Store, cause: Cause, process: AtomId) -> Result<Ref, NoMemory>
    requires { HasCulprit store.old.cells cause }
    ensures { IfOk result (λ place. (names : List Name) → IsTable names →
        AreNamed (length names) store.old.cells → CauseStands names cause →
        process.at < length names →
        Built names store.old store.new place.at
        (error (kind_term names store.old.cells cause) (name_at names process.at))) }
{
    let kind = kind_of(store, cause)?;
    let place = error(store, kind, process)?;
    Ok(place)
}

/// The place of an error of the kind that a place shows, as a process raises it.
pub fn raised_kind(store: &mut Store, kind: Ref, process: AtomId) -> Result<Ref, NoMemory>
    requires { kind.at < length store.old.cells }
    ensures { IfOk result (λ place. (names : List Name) → IsTable names →
        AreNamed (length names) store.old.cells → process.at < length names →
        Built names store.old store.new place.at
        (error (shows names store.old.cells kind.at) (name_at names process.at))) }
{
    let last = placed_again(store, kind)?;
    let place = error(store, last, process)?;
    Ok(place)
}
