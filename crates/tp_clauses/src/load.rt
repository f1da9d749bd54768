//! The clauses of a text, one read term after another.

ghost use Rattle.std.specs.Prelude.{◌≡◌, ◌<◌, ◌≤◌, ◌+◌, List, length, slice_get, true, Ok, Err};
ghost use Rattle.std.specs.Prelude.{Some, IfOk, OnOk};
ghost use Rattle.std.specs.Result.{is_ok};
ghost use Rattle.std.specs.Str.{IsCharBoundary};
ghost use Rattle.tp_terms.specs.Term.{Name};
ghost use Rattle.tp_terms.specs.Names.{Grows, IsTable};
ghost use Rattle.tp_terms.specs.Shown.{AreBuilt, AreNamed, shows};
ghost use Rattle.tp_lex.specs.Next.{next};
ghost use Rattle.tp_parse.specs.Ops.{table_of};
ghost use Rattle.tp_parse.specs.Table.{start_table};
ghost use Rattle.tp_parse.specs.Tells.{Tells};
ghost use Rattle.tp_parse.specs.Texts.{Found};
ghost use Rattle.tp_clauses.specs.Contents.{AreBelow, AreNameable, HasNames};
ghost use Rattle.tp_clauses.specs.Kinds.{head_key, key_of, read_as};
ghost use Rattle.tp_clauses.specs.Loaded.{AsksMemory};
ghost use Rattle.tp_clauses.specs.Model.{OfClause, by_token, kind_of, model_from};
ghost use Rattle.tp_clauses.specs.Model.{most_terms, rule as rule_of, with_head};
ghost use Rattle.tp_clauses.specs.Parts.{IsParts};
ghost use Rattle.tp_clauses.specs.Told.{IsNoInteger, MayDefine, MayTake, TellsBegin, TellsEnd};
ghost use Rattle.tp_clauses.specs.Told.{TellsToken, TellsParts, TellsRead, TellsStep, TellsTerm};
ghost use Rattle.tp_clauses.specs.Told.{outcome};

use crate::append::place_on;
use crate::base::ClauseView;
use crate::directive::{TermFault, run};
use crate::fault::{Cause, LoadFault, cause_of};
use crate::kind::{Key, ReadKind, head_key, kind_of};
use crate::parts::{Parts, add_cells, add_clause, body_of, empty};
use std::alloc::Global;
use tp_lex::{LexFault, Token, next_token};
use tp_parse::{ReadFault, ReadTerm, read_clause};
use tp_terms::symbols::INF;
use tp_terms::{Atoms, Cell, Cells, NoMemory, Ref};

/// A clause with a head and a body, in some cells.
#[derive(Clone, Copy)]
struct Rule {
    /// The place of its head.
    head: Ref,
    /// The place of its body.
    body: Ref,
    /// How many variables it has, numbered from 0.
    vars: u64,
}

/// The most read terms of a text, directives counted.
const MOST_TERMS: u64 = 1_000_000;

impl From<NoMemory> for TermFault {
    ghost use Rattle.std.specs.Prelude.{◌≡◌};
    ghost use Rattle.tp_clauses.specs.declared.directive.TermFault.TheVariants as fault;

    ghost from_gives = { λ _ e. e ≡ fault.NoMemory };

    fn from(_refused: NoMemory) -> Self {
        TermFault::NoMemory
    }
}

/// The parts of the base of a text.
pub fn load_text(alloc: Global, text: &str, atoms: &mut Atoms) -> Result<Parts, LoadFault>
    ensures model { TellsParts atoms.new result (model_from most_terms 1 text.now start_table 0) }
    ensures parts { IfOk result IsParts }
    ensures grows { Grows atoms.old atoms.new }
    ensures memory { result ≡ Err LoadFault.NoMemory → AsksMemory text.now }
    ensures token { OnOk result (is_ok (next text.now 0) ≡ true) }
{
    let mut parts = match begin(alloc, text) {
        Ok(parts) => parts,
        Err(fault) => return Err(fault),
    };
    let mut at = 0;
    'terms: for before in 0..MOST_TERMS {
        match read_next(&mut parts, text, at, before + 1, atoms) {
            Ok(Some(to)) => at = to,
            Ok(None) => return Ok(parts),
            Err(fault) => return Err(fault),
        }
    }
    match end_of(text, at, MOST_TERMS + 1) {
        Ok(()) => Ok(parts),
        Err(fault) => Err(fault),
    }
}

/// No clause yet, where the first token isn't refused.
fn begin(alloc: Global, text: &str) -> Result<Parts, LoadFault>
    ensures told { TellsBegin result (next text.now 0) }
    ensures token { OnOk result (is_ok (next text.now 0) ≡ true) }
{
    match token_at(text, 0, 1) {
        Ok(_) => match empty(alloc) {
            Ok(parts) => Ok(parts),
            Err(NoMemory) => Err(LoadFault::NoMemory),
        },
        Err(fault) => Err(fault),
    }
}

/// Sees that no further read term begins.
fn end_of(text: &str, at: usize, number: u64) -> Result<(), LoadFault>
    requires { IsCharBoundary text.now at }
    ensures { TellsEnd number result (next text.now at) }
{
    match token_at(text, at, number) {
        Ok(None) => Ok(()),
        Ok(Some(token)) => Err(refused(number, token.from, Cause::Many)),
        Err(fault) => Err(fault),
    }
}

/// The next token from a byte on, where the read term of this number may begin.
fn token_at(text: &str, at: usize, number: u64) -> Result<Option<Token>, LoadFault>
    requires { IsCharBoundary text.now at }
    ensures { TellsToken number result (next text.now at) }
{
    match next_token(text, at) {
        Ok(found) => Ok(found),
        Err(LexFault::BadToken(byte)) => Err(refused(number, byte, Cause::Token)),
        Err(LexFault::NumberRange(byte)) => Err(refused(number, byte, Cause::Number)),
        Err(LexFault::Unfinished(byte)) => Err(refused(number, byte, Cause::Unfinished)),
    }
}

/// The refusal of a read term.
fn refused(number: u64, byte: usize, cause: Cause) -> LoadFault
    ensures { result ≡ LoadFault.Refused number byte cause }
{
    LoadFault::Refused {
        clause: number,
        byte: byte as u64,
        cause,
    }
}

/// Takes the read term from a byte on, and answers the byte behind it; none where no read term
/// remains.
fn read_next(
    parts: &mut Parts,
    text: &str,
    at: usize,
    number: u64,
    atoms: &mut Atoms,
) -> Result<Option<usize>, LoadFault>
    requires place { IsCharBoundary text.now at }
    requires parts { IsParts parts.old }
    requires known { AreNamed (length atoms.old) parts.old.store.cells }
    ensures read { TellsStep atoms.new parts.old parts.new text.now at number result }
    ensures grows { Grows atoms.old atoms.new }
    ensures memory { result ≡ Err LoadFault.NoMemory → is_ok (next text.now at) ≡ true }
{
    let alloc = *parts.clauses.allocator();
    match read_clause(alloc, text, at, &parts.ops, atoms) {
        Ok(None) => Ok(None),
        Ok(Some(read)) => {
            let to = read.to;
            match take_read(parts, read, number, atoms) {
                Ok(()) => Ok(Some(to)),
                Err(fault) => Err(fault),
            }
        }
        Err(ReadFault::NoMemory) => Err(LoadFault::NoMemory),
        Err(ReadFault::Refused { byte, cause }) => Err(refused(number, byte, cause_of(cause))),
    }
}

/// Takes a read term, whose cells are dropped.
fn take_read(parts: &mut Parts, read: ReadTerm, number: u64, atoms: &Atoms) -> Result<(), LoadFault>
    requires parts { IsParts parts.old }
    requires within { (read.root).at < length (read.cells).items }
    requires named { AreNamed (length atoms.now) (read.cells).items }
    requires below { AreBelow (read.cells).items read.vars read.root }
    requires known { AreNamed (length atoms.now) parts.old.store.cells }
    ensures { TellsRead atoms.now parts.old parts.new number read.from result
        (outcome (table_of parts.old.ops)
        (kind_of (table_of parts.old.ops)
        (shows atoms.now (read.cells).items (read.root).at) read.vars)) }
{
    let (root, vars, from) = (read.root, read.vars, read.from);
    let cells = read.cells;
    let (places, known) = (cells.len(), atoms.len());
    prove!(root.at < places);
    prove!((INF.at as usize) < known);
    match take_term(parts, &cells, root, vars, atoms) {
        Ok(()) => Ok(()),
        Err(TermFault::NoMemory) => Err(LoadFault::NoMemory),
        Err(TermFault::Refused(cause)) => Err(refused(number, from, cause)),
    }
}

/// Takes the term of a place.
fn take_term(
    parts: &mut Parts,
    cells: &Cells,
    root: Ref,
    vars: u64,
    atoms: &Atoms,
) -> Result<(), TermFault>
    requires parts { IsParts parts.old }
    requires within { root.at < length cells.now.items }
    requires names { HasNames atoms.now cells.now.items }
    requires built { AreBuilt cells.now.items }
    requires below { AreBelow cells.now.items vars root }
    requires known { AreNamed (length atoms.now) parts.old.store.cells }
    ensures told { TellsTerm atoms.now parts.old parts.new result
        (outcome (table_of parts.old.ops)
        (kind_of (table_of parts.old.ops) (shows atoms.now cells.now.items root.at) vars)) }
    ensures memory { result ≡ Err TermFault.NoMemory →
        MayTake cells.now.items root (read_as (slice_get cells.now.items root.at)) }
{
    match kind_of(cells, root) {
        ReadKind::Directive { goal } => run(cells, goal, atoms, &mut parts.ops),
        ReadKind::Query => Err(TermFault::Refused(Cause::Directive)),
        ReadKind::Grammar => Err(TermFault::Refused(Cause::Grammar)),
        ReadKind::Rule { head, body } => take_rule(parts, cells, Rule { head, body, vars }),
        ReadKind::Fact => take_fact(parts, cells, root, vars),
    }
}

/// Takes a clause that is a head alone.
fn take_fact(parts: &mut Parts, cells: &Cells, head: Ref, vars: u64) -> Result<(), TermFault>
    requires parts { IsParts parts.old }
    requires within { head.at < length cells.now.items }
    requires built { AreBuilt cells.now.items }
    requires below { AreBelow cells.now.items vars head }
    ensures told { (names : List Name) → HasNames names cells.now.items →
        AreNamed (length names) parts.old.store.cells →
        TellsTerm names parts.old parts.new result
        (outcome (table_of parts.old.ops)
        (OfClause (with_head (shows names cells.now.items head.at) vars None))) }
    ensures memory { result ≡ Err TermFault.NoMemory → MayDefine cells.now.items head }
{
    match head_key(cells, head) {
        Ok(key) => {
            let by = add_cells(parts, cells)?;
            let view = ClauseView {
                head: place_on(head, by),
                body: None,
                vars,
            };
            add_clause(parts, view, key)?;
            Ok(())
        }
        Err(cause) => Err(TermFault::Refused(cause)),
    }
}

/// Takes a clause with a head and a body.
fn take_rule(parts: &mut Parts, cells: &Cells, rule: Rule) -> Result<(), TermFault>
    requires parts { IsParts parts.old }
    requires head { rule.head.at < length cells.now.items }
    requires body { rule.body.at < length cells.now.items }
    requires built { AreBuilt cells.now.items }
    requires nameable { AreNameable parts.old.store.cells cells.now.items }
    requires head_below { AreBelow cells.now.items rule.vars rule.head }
    requires body_below { AreBelow cells.now.items rule.vars rule.body }
    ensures told { (names : List Name) → HasNames names cells.now.items →
        AreNamed (length names) parts.old.store.cells →
        TellsTerm names parts.old parts.new result
        (outcome (table_of parts.old.ops)
        (OfClause (rule_of (shows names cells.now.items rule.head.at)
        (shows names cells.now.items rule.body.at) rule.vars))) }
    ensures memory { result ≡ Err TermFault.NoMemory →
        MayDefine cells.now.items rule.head × IsNoInteger (slice_get cells.now.items rule.body.at) }
{
    match head_key(cells, rule.head) {
        Ok(key) => take_body(parts, cells, rule, key),
        Err(cause) => Err(TermFault::Refused(cause)),
    }
}

/// Takes a clause whose head defines a key.
fn take_body(parts: &mut Parts, cells: &Cells, rule: Rule, key: Key) -> Result<(), TermFault>
    requires parts { IsParts parts.old }
    requires head { rule.head.at < length cells.now.items }
    requires body { rule.body.at < length cells.now.items }
    requires built { AreBuilt cells.now.items }
    requires key { key_of (slice_get cells.now.items rule.head.at) ≡ Some key }
    requires free { (names : List Name) → HasNames names cells.now.items →
        head_key names (slice_get cells.now.items rule.head.at) ≡ Ok key }
    requires nameable { AreNameable parts.old.store.cells cells.now.items }
    requires head_below { AreBelow cells.now.items rule.vars rule.head }
    requires body_below { AreBelow cells.now.items rule.vars rule.body }
    ensures told { (names : List Name) → HasNames names cells.now.items →
        AreNamed (length names) parts.old.store.cells →
        TellsTerm names parts.old parts.new result
        (outcome (table_of parts.old.ops)
        (OfClause (rule_of (shows names cells.now.items rule.head.at)
        (shows names cells.now.items rule.body.at) rule.vars))) }
    ensures memory { result ≡ Err TermFault.NoMemory →
        IsNoInteger (slice_get cells.now.items rule.body.at) }
{
    if let Cell::Int(_) = cells.get(rule.body) {
        return Err(TermFault::Refused(Cause::Body));
    }
    let by = add_cells(parts, cells)?;
    match body_of(parts, place_on(rule.body, by))? {
        Some(place) => {
            let view = ClauseView {
                head: place_on(rule.head, by),
                body: Some(place),
                vars: rule.vars,
            };
            add_clause(parts, view, key)?;
            Ok(())
        }
        None => Err(TermFault::Refused(Cause::Body)),
    }
}
