//! What a cell is written as, and whether it needs parentheses.

ghost use Rattle.std.specs.Prelude.{◌≡◌, ◌<◌, length, codes};
ghost use Rattle.tp_terms.specs.Term.{names_eq};
ghost use Rattle.tp_terms.specs.Shown.{IsNamed, name_at};
ghost use Rattle.tp_parse.specs.Ops.{table_of};
ghost use Rattle.tp_write.specs.Text.{binary_form, may_stand_left, priority_by, unary_form};
ghost use Rattle.tp_write.specs.Work.{cell_closed, cell_form, is_operator, is_operator_cell};

use crate::pieces::{Form, Position};
use tp_parse::{OpType, Ops, left_bound};
use tp_terms::{AtomId, Atoms, Cell};

/// Whether this is the name of list cells.
pub fn is_list_cell(name: AtomId, atoms: &Atoms) -> bool
    requires { name.at < length atoms.now }
    ensures { result ≡ names_eq (name_at atoms.now name.at) (codes ".") }
{
    atoms.name(name) == "."
}

/// Whether this is the empty list.
pub fn is_empty_list(name: AtomId, atoms: &Atoms) -> bool
    requires { name.at < length atoms.now }
    ensures { result ≡ names_eq (name_at atoms.now name.at) (codes "[]") }
{
    atoms.name(name) == "[]"
}

/// Whether this is the name of terms in braces.
fn is_braces(name: AtomId, atoms: &Atoms) -> bool
    requires { name.at < length atoms.now }
    ensures { result ≡ names_eq (name_at atoms.now name.at) (codes "{}") }
{
    atoms.name(name) == "{}"
}

/// Whether this is the name of conjunctions.
pub fn is_comma(name: AtomId, atoms: &Atoms) -> bool
    requires { name.at < length atoms.now }
    ensures { result ≡ names_eq (name_at atoms.now name.at) (codes ",") }
{
    atoms.name(name) == ","
}

/// The form of a term of one argument.
fn unary_form(name: AtomId, ops: &Ops, atoms: &Atoms) -> Form
    requires { name.at < length atoms.now }
    ensures { let text = name_at atoms.now name.at in
        result ≡ unary_form text ((table_of ops.now).prefixes text) }
{
    if is_braces(name, atoms) {
        return Form::Braces;
    }
    match ops.prefix(atoms.name(name)) {
        Some(op) => Form::Prefix(op),
        None => Form::Plain,
    }
}

/// The form of a term of two arguments.
fn binary_form(name: AtomId, ops: &Ops, atoms: &Atoms) -> Form
    requires { name.at < length atoms.now }
    ensures { let text = name_at atoms.now name.at in
        result ≡ binary_form text ((table_of ops.now).infixes text) }
{
    if is_list_cell(name, atoms) {
        return Form::Listed;
    }
    match ops.infix(atoms.name(name)) {
        Some(op) => Form::Infix(op),
        None => Form::Plain,
    }
}

/// The form of a cell.
pub fn cell_form(cell: Cell, ops: &Ops, atoms: &Atoms) -> Form
    requires { IsNamed (length atoms.now) cell }
    ensures { result ≡ cell_form (table_of ops.now) atoms.now cell }
{
    match cell {
        Cell::Comp { name, count, .. } => match count {
            1 => unary_form(name, ops, atoms),
            2 => binary_form(name, ops, atoms),
            _ => Form::Plain,
        },
        _ => Form::Plain,
    }
}

/// The priority of a term of this form.
fn priority(form: Form) -> u16
    ensures { result ≡ priority_by form }
{
    match form {
        Form::Infix(op) | Form::Prefix(op) => op.0,
        _ => 0,
    }
}

/// Whether a term of this form may stand at the left of an operator of its priority.
fn may_stand_left(form: Form) -> bool
    ensures { result ≡ may_stand_left form }
{
    match form {
        Form::Infix(op) => matches!(op.1, OpType::Yfx | OpType::Xfx),
        Form::Prefix(op) => matches!(op.1, OpType::Fx),
        _ => false,
    }
}

/// Whether the name is an operator.
fn is_operator(name: AtomId, ops: &Ops, atoms: &Atoms) -> bool
    requires { name.at < length atoms.now }
    ensures { result ≡ is_operator (table_of ops.now) (name_at atoms.now name.at) }
{
    let text = atoms.name(name);
    ops.prefix(text).is_some() || ops.infix(text).is_some()
}

/// Whether the cell is an atom that is an operator.
fn is_operator_cell(cell: Cell, ops: &Ops, atoms: &Atoms) -> bool
    requires { IsNamed (length atoms.now) cell }
    ensures { result ≡ is_operator_cell (table_of ops.now) atoms.now cell }
{
    match cell {
        Cell::Atom(name) => is_operator(name, ops, atoms),
        _ => false,
    }
}

/// Whether a cell of this form stands in parentheses at this position.
pub fn is_closed(cell: Cell, form: Form, position: Position, ops: &Ops, atoms: &Atoms) -> bool
    requires { IsNamed (length atoms.now) cell }
    ensures { result ≡ cell_closed (table_of ops.now) atoms.now cell form position }
{
    match position {
        Position::Within(max) => priority(form) > max,
        Position::Operand(bound) => is_operator_cell(cell, ops, atoms) || priority(form) > bound,
        Position::Left(op) => {
            is_operator_cell(cell, ops, atoms)
                || priority(form) > left_bound(op)
                || (priority(form) == op.0 && !may_stand_left(form))
        }
    }
}
