//! Directives, which change the table of operators.

ghost use Rattle.std.specs.Prelude.{◌≡◌, ◌<◌, length, slice_get, true, Some, Ok, Err};
ghost use Rattle.tp_terms.specs.Shown.{AreBuilt, name_at, shows};
ghost use Rattle.tp_parse.specs.Ops.{table_of};
ghost use Rattle.tp_parse.specs.Table.{Table, add_op};
ghost use Rattle.tp_clauses.specs.Directives.{add_names, directive, listed_names, op_names};
ghost use Rattle.tp_clauses.specs.Contents.{HasNames};
ghost use Rattle.tp_clauses.specs.Told.{MayAdd, TellsDirective, added_or_none, allows_atom};
ghost use Rattle.tp_clauses.specs.Told.{each_added, element_part, is_type_atom, list_part};
ghost use Rattle.tp_clauses.specs.Told.{lone_name, operators_at, typed};

use crate::fault::Cause;
use tp_parse::{OpFault, Ops};
use tp_terms::symbols::{EMPTY_LIST, FX, FY, LIST_CELL, OP, XFX, XFY, YFX};
use tp_terms::{AtomId, Atoms, Cell, Cells, Ref};

/// Why a read term was not taken.
#[derive(Clone, Copy, Debug, PartialEq, Eq)]
pub enum TermFault {
    /// It is refused.
    Refused(Cause),
    /// Memory was refused.
    NoMemory,
}

/// What a place is as a list of names.
#[derive(Clone, Copy, Debug, PartialEq, Eq)]
enum ListPart {
    /// The empty list.
    End,
    /// A name, and the place of the list behind it.
    Name {
        /// The name.
        name: AtomId,
        /// The place.
        rest: Ref,
    },
    /// It is no list of names.
    Other,
}

/// What `op` with three arguments adds.
#[derive(Clone, Copy, Debug, PartialEq, Eq)]
struct Operators {
    /// The priority.
    priority: i64,
    /// The type.
    kind: AtomId,
    /// The place of the name, or of the list of names.
    names: Ref,
}

/// Does a directive, which is refused where it is none that may be given.
pub fn run(cells: &Cells, goal: Ref, atoms: &Atoms, ops: &mut Ops) -> Result<(), TermFault>
    requires within { goal.at < length cells.now.items }
    requires names { HasNames atoms.now cells.now.items }
    requires built { AreBuilt cells.now.items }
    ensures told { TellsDirective (table_of ops.new) result
        (directive (shows atoms.now cells.now.items goal.at) (table_of ops.old)) }
    ensures memory { result ≡ Err TermFault.NoMemory →
        MayAdd (operators_at (slice_get cells.now.items) (slice_get cells.now.items goal.at)) }
{
    match operators_of(cells, goal) {
        Some(operators) => add_names(cells, operators, atoms, ops),
        None => Err(TermFault::Refused(Cause::Directive)),
    }
}

/// What the term of a place adds, where it is `op` with a priority and a type.
fn operators_of(cells: &Cells, goal: Ref) -> Option<Operators>
    requires { goal.at < length cells.now.items }
    ensures { result ≡ operators_at (slice_get cells.now.items)
        (slice_get cells.now.items goal.at) }
{
    match cells.get(goal) {
        Cell::Comp { name, first, count } => {
            if name == OP && count == 3 {
                let (priority, kind) = (cells.get(first), cells.get(Ref { at: first.at + 1 }));
                typed(priority, kind, Ref { at: first.at + 2 })
            } else {
                None
            }
        }
        _ => None,
    }
}

/// Operators of a priority and a type.
fn typed(priority: Cell, kind: Cell, names: Ref) -> Option<Operators>
    ensures { result ≡ typed names (Some priority) (Some kind) }
{
    match priority {
        Cell::Int(priority) => match kind {
            Cell::Atom(kind) => Some(Operators {
                priority,
                kind,
                names,
            }),
            _ => None,
        },
        _ => None,
    }
}

/// Adds an operator for a name, or for each name of a list.
fn add_names(
    cells: &Cells,
    operators: Operators,
    atoms: &Atoms,
    ops: &mut Ops,
) -> Result<(), TermFault>
    requires within { operators.names.at < length cells.now.items }
    requires kind { operators.kind.at < length atoms.now }
    requires names { HasNames atoms.now cells.now.items }
    requires built { AreBuilt cells.now.items }
    ensures told { TellsDirective (table_of ops.new) result
        (add_names operators.priority (name_at atoms.now operators.kind.at)
        (op_names (shows atoms.now cells.now.items operators.names.at)) (table_of ops.old)) }
    ensures memory { result ≡ Err TermFault.NoMemory →
        allows_atom operators.priority operators.kind ≡ true }
{
    if !allows(operators.priority, operators.kind) {
        return Err(TermFault::Refused(Cause::Directive));
    }
    match lone_name(cells.get(operators.names)) {
        Some(name) => add_name(operators.priority, operators.kind, name, atoms, ops),
        None => add_listed(cells, operators, atoms, ops),
    }
}

/// Whether an operator may have a priority and a type.
fn allows(priority: i64, kind: AtomId) -> bool
    ensures { result ≡ allows_atom priority kind }
{
    priority >= 0 && priority <= 1200 && is_type(kind)
}

/// Whether an atom is a type of operators.
fn is_type(kind: AtomId) -> bool
    ensures { result ≡ is_type_atom kind }
{
    kind == XFX || kind == XFY || kind == YFX || kind == FY || kind == FX
}

/// An atom that is no empty list.
fn lone_name(cell: Cell) -> Option<AtomId>
    ensures { result ≡ lone_name cell }
{
    match cell {
        Cell::Atom(name) => { if name == EMPTY_LIST { None } else { Some(name) } }
        _ => None,
    }
}

/// Adds an operator.
fn add_name(
    priority: i64,
    kind: AtomId,
    name: AtomId,
    atoms: &Atoms,
    ops: &mut Ops,
) -> Result<(), TermFault>
    requires kind { kind.at < length atoms.now }
    requires name { name.at < length atoms.now }
    ensures told { TellsDirective (table_of ops.new) result
        (added_or_none (add_op priority (name_at atoms.now kind.at) (name_at atoms.now name.at)
        (table_of ops.old))) }
    ensures memory { result ≡ Err TermFault.NoMemory → (t : Table) ×
        (add_op priority (name_at atoms.now kind.at) (name_at atoms.now name.at) (table_of ops.old)
        ≡ Ok t) }
{
    match ops.add(priority, atoms.name(kind), atoms.name(name)) {
        Ok(()) => Ok(()),
        Err(OpFault::NoMemory) => Err(TermFault::NoMemory),
        Err(OpFault::Priority) => Err(TermFault::Refused(Cause::Directive)),
        Err(OpFault::Kind) => Err(TermFault::Refused(Cause::Directive)),
        Err(OpFault::Name) => Err(TermFault::Refused(Cause::Directive)),
    }
}

/// Adds an operator for each name of a list.
fn add_listed(
    cells: &Cells,
    operators: Operators,
    atoms: &Atoms,
    ops: &mut Ops,
) -> Result<(), TermFault>
    requires within { operators.names.at < length cells.now.items }
    requires kind { operators.kind.at < length atoms.now }
    requires names { HasNames atoms.now cells.now.items }
    requires built { AreBuilt cells.now.items }
    ensures { TellsDirective (table_of ops.new) result
        (each_added operators.priority (name_at atoms.now operators.kind.at)
        (listed_names (shows atoms.now cells.now.items operators.names.at))
        (table_of ops.old)) }
{
    let mut rest = operators.names;
    'names: loop {
        match list_part(cells, rest) {
            ListPart::End => return Ok(()),
            ListPart::Name { name, rest: behind } => {
                add_name(operators.priority, operators.kind, name, atoms, ops)?;
                rest = behind;
            }
            ListPart::Other => return Err(TermFault::Refused(Cause::Directive)),
        }
    }
}

/// What a place is as a list of names.
fn list_part(cells: &Cells, place: Ref) -> ListPart
    requires { place.at < length cells.now.items }
    ensures { result ≡ list_part (slice_get cells.now.items) (slice_get cells.now.items place.at) }
{
    match cells.get(place) {
        Cell::Atom(name) => {
            if name == EMPTY_LIST {
                ListPart::End
            } else {
                ListPart::Other
            }
        }
        Cell::Comp { name, first, count } => {
            if name == LIST_CELL && count == 2 {
                element_part(cells.get(first), Ref { at: first.at + 1 })
            } else {
                ListPart::Other
            }
        }
        _ => ListPart::Other,
    }
}

/// A list by its first element and the place of the list behind it.
fn element_part(element: Cell, rest: Ref) -> ListPart
    ensures { result ≡ element_part rest (Some element) }
{
    match element {
        Cell::Atom(name) => ListPart::Name { name, rest },
        _ => ListPart::Other,
    }
}
