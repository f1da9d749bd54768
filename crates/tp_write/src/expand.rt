//! Pieces put in place of a piece. On the stack the first to be written stands last.

ghost use Rattle.std.specs.Prelude.{◌≡◌, ℕ, ◌+◌, ◌^◌, ◌<◌, length};
ghost use Rattle.tp_terms.specs.Shown.{IsNamed, StandsBefore};
ghost use Rattle.tp_parse.specs.Ops.{table_of};
ghost use Rattle.tp_write.specs.Work.{Puts, alone_pieces, args_pieces, behind_pieces};
ghost use Rattle.tp_write.specs.Work.{compound_pieces, infix_pieces, mark_if, operator_pieces};
ghost use Rattle.tp_write.specs.Work.{pair_pieces, tail_pieces, term_pieces};

use crate::form::{cell_form, is_closed, is_comma, is_empty_list, is_list_cell};
use crate::pieces::{End, Form, Piece, Position};
use tp_parse::{Op, Ops, right_bound};
use tp_terms::{AtomId, Atoms, Cell, NoMemory, Ref};

/// The place behind this one.
fn next_place(at: Ref) -> Ref
    requires { at.at + 1 < 2 ^ 64 }
    ensures { result.at ≡ at.at + 1 }
{
    Ref { at: at.at + 1 }
}

/// Adds the name of an infix operator: a comma without spaces.
fn push_infix_name(name: AtomId, atoms: &Atoms, stack: &mut Vec<Piece>) -> Result<(), NoMemory>
    requires { name.at < length atoms.now }
    ensures { Puts stack.old stack.new result (infix_pieces atoms.now name) }
{
    if is_comma(name, atoms) {
        stack.push(Piece::Mark(','))?;
    } else {
        stack.extend_from_slice(&[Piece::Mark(' '), Piece::Name(name), Piece::Mark(' ')])?;
    }
    Ok(())
}

/// Adds an infix operator with its operands.
fn push_infix(
    op: Op,
    name: AtomId,
    first: Ref,
    atoms: &Atoms,
    stack: &mut Vec<Piece>,
) -> Result<(), NoMemory>
    requires name { name.at < length atoms.now }
    requires args { first.at + 1 < 2 ^ 64 }
    ensures { Puts stack.old stack.new result (operator_pieces atoms.now op name first) }
{
    stack.push(Piece::Term(next_place(first), Position::Operand(right_bound(op))))?;
    push_infix_name(name, atoms, stack)?;
    stack.push(Piece::Term(first, Position::Left(op)))?;
    Ok(())
}

/// Adds a compound of this form.
fn push_compound(
    form: Form,
    name: AtomId,
    args: (Ref, u8),
    atoms: &Atoms,
    stack: &mut Vec<Piece>,
) -> Result<(), NoMemory>
    requires name { name.at < length atoms.now }
    requires args { args.0.at + 1 < 2 ^ 64 }
    ensures { Puts stack.old stack.new result (compound_pieces atoms.now form name args.0 args.1) }
{
    let (first, count) = args;
    match form {
        Form::Listed => stack.extend_from_slice(&[
            Piece::Mark(']'),
            Piece::Behind(next_place(first)),
            Piece::Term(first, Position::Within(999)),
            Piece::Mark('['),
        ])?,
        Form::Braces => stack.extend_from_slice(&[
            Piece::Mark('}'),
            Piece::Term(first, Position::Within(1200)),
            Piece::Mark('{'),
        ])?,
        Form::Infix(op) => push_infix(op, name, first, atoms, stack)?,
        Form::Prefix(op) => stack.extend_from_slice(&[
            Piece::Term(first, Position::Operand(right_bound(op))),
            Piece::Mark(' '),
            Piece::Name(name),
        ])?,
        Form::Plain => stack.extend_from_slice(&[
            Piece::Mark(')'),
            Piece::Args(first, count),
            Piece::Mark('('),
            Piece::Name(name),
        ])?,
    }
    Ok(())
}

/// Adds a term without parentheses around it.
fn push_alone(cell: Cell, form: Form, atoms: &Atoms, stack: &mut Vec<Piece>) -> Result<(), NoMemory>
    requires named { IsNamed (length atoms.now) cell }
    requires args { (name : AtomId) (first : Ref) (count : ℕ) →
        cell ≡ Cell.Comp name first count → first.at + 1 < 2 ^ 64 }
    ensures { Puts stack.old stack.new result (alone_pieces atoms.now form cell) }
{
    match cell {
        Cell::Var(number) => stack.extend_from_slice(&[Piece::Number(number), Piece::Mark('_')])?,
        Cell::Int(value) => stack.push(Piece::Integer(value))?,
        Cell::Atom(name) => stack.push(Piece::Name(name))?,
        Cell::Comp { name, first, count } => push_compound(
            form,
            name,
            (first, count),
            atoms,
            stack,
        )?,
    }
    Ok(())
}

/// Adds a parenthesis where it is needed.
fn push_mark_if(needed: bool, mark: char, stack: &mut Vec<Piece>) -> Result<(), NoMemory>
    ensures { Puts stack.old stack.new result (mark_if needed mark) }
{
    if needed {
        stack.push(Piece::Mark(mark))?;
    }
    Ok(())
}

/// Puts pieces in place of a term.
pub fn expand_term(
    end: End,
    position: Position,
    ops: &Ops,
    atoms: &Atoms,
    stack: &mut Vec<Piece>,
) -> Result<(), NoMemory>
    requires named { IsNamed (length atoms.now) end.cell }
    requires before { StandsBefore end.place.at end.cell }
    ensures { Puts stack.old stack.new result
        (term_pieces (table_of ops.now) atoms.now position end.cell) }
{
    let form = cell_form(end.cell, ops, atoms);
    let needed = is_closed(end.cell, form, position, ops, atoms);
    push_mark_if(needed, ')', stack)?;
    push_alone(end.cell, form, atoms, stack)?;
    push_mark_if(needed, '(', stack)
}

/// Puts pieces in place of so many arguments.
pub fn expand_args(first: Ref, count: u8, stack: &mut Vec<Piece>) -> Result<(), NoMemory>
    requires { first.at + count < 2 ^ 64 }
    ensures { Puts stack.old stack.new result (args_pieces first count) }
{
    let term = Piece::Term(first, Position::Within(999));
    match count {
        0 => {}
        1 => stack.push(term)?,
        _ => stack.extend_from_slice(&[
            Piece::Args(next_place(first), count - 1),
            Piece::Mark(','),
            term,
        ])?,
    }
    Ok(())
}

/// Adds what follows an element where it is no list.
fn push_tail(place: Ref, stack: &mut Vec<Piece>) -> Result<(), NoMemory>
    ensures { Puts stack.old stack.new result (tail_pieces place) }
{
    stack.extend_from_slice(&[Piece::Term(place, Position::Within(999)), Piece::Mark('|')])?;
    Ok(())
}

/// Adds what follows an element, for a compound.
fn push_pair(
    name: AtomId,
    args: (Ref, u8),
    place: Ref,
    atoms: &Atoms,
    stack: &mut Vec<Piece>,
) -> Result<(), NoMemory>
    requires name { name.at < length atoms.now }
    requires args { args.0.at + args.1 < 2 ^ 64 }
    ensures { Puts stack.old stack.new result (pair_pieces atoms.now name place args.0 args.1) }
{
    let (first, count) = args;
    if count == 2 && is_list_cell(name, atoms) {
        stack.extend_from_slice(&[
            Piece::Behind(next_place(first)),
            Piece::Term(first, Position::Within(999)),
            Piece::Mark(','),
        ])?;
        Ok(())
    } else {
        push_tail(place, stack)
    }
}

/// Puts pieces in place of what follows an element.
pub fn expand_behind(end: End, atoms: &Atoms, stack: &mut Vec<Piece>) -> Result<(), NoMemory>
    requires named { IsNamed (length atoms.now) end.cell }
    requires before { StandsBefore end.place.at end.cell }
    ensures { Puts stack.old stack.new result (behind_pieces atoms.now end.place end.cell) }
{
    match end.cell {
        Cell::Atom(name) => {
            if is_empty_list(name, atoms) {
                return Ok(());
            }
            push_tail(end.place, stack)
        }
        Cell::Comp { name, first, count } => push_pair(
            name,
            (first, count),
            end.place,
            atoms,
            stack,
        ),
        _ => push_tail(end.place, stack),
    }
}
