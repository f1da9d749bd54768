//! The cells of a term, from the steps that make it.

ghost use Rattle.std.specs.Prelude.{◌≡◌, ◌+◌, ◌<◌, ◌≤◌, ◌^◌, ℕ, List, [], ◌∷◌, ◌++◌, length, take};
ghost use Rattle.std.specs.Prelude.{drop, slice_get, chars, codes, Some, IfOk, OnOk};
ghost use Rattle.tp_terms.specs.Names.{Grows, IsTable, with_name};
ghost use Rattle.tp_terms.specs.Term.{Name};
ghost use Rattle.tp_terms.specs.Shown.{AreNamed};
ghost use Rattle.tp_lex.specs.Next.{token_name};
ghost use Rattle.tp_parse.specs.Making.{AllBefore, IsBuilt, IsGathered, IsMade};
ghost use Rattle.tp_parse.specs.Numbers.{no_numbers};
ghost use Rattle.tp_parse.specs.NewNames.{AddsOnly, writes_any};
ghost use Rattle.tp_parse.specs.Steps.{AreReady, HasName, IsLabel, IsReady, act, label_name};
ghost use Rattle.tp_parse.specs.Steps.{linked, trees_of};
ghost use Rattle.tp_parse.specs.Tree.{Tree};

use crate::steps::{Label, Step};
use crate::variables::Variables;
use crate::words::plain_name;
use std::alloc::Global;
use tp_lex::{Token, TokenKind, token_text};
use tp_terms::symbols::{BRACES, CONJUNCTION, EMPTY_LIST, LIST_CELL};
use tp_terms::{AtomId, Atoms, Cell, Cells, NoMemory, Ref};

/// Terms that are being made.
#[derive(Drop)]
pub struct Making {
    /// The cells so far.
    pub cells: Cells,
    /// The cells of the last terms, which are not among the others yet.
    pub made: Vec<Cell>,
    /// The variables so far.
    pub variables: Variables,
}

/// The atom of a token's name.
#[inline(always)]
fn intern_token(
    alloc: Global,
    text: &str,
    token: Token,
    atoms: &mut Atoms,
) -> Result<AtomId, NoMemory>
    requires { HasName text.now token }
    ensures place { IfOk result (λ atom.
        slice_get atoms.new atom.at ≡ Some (token_name text.now token)) }
    ensures names { OnOk result (atoms.new ≡ with_name atoms.old (token_name text.now token)) }
    ensures grows { Grows atoms.old atoms.new }
{
    match token.kind {
        TokenKind::Quoted | TokenKind::Codes => {
            let name = token_text(alloc, text, &token)?;
            atoms.intern(name.as_str())
        }
        _ => atoms.intern(plain_name(text, &token)),
    }
}

/// The atom of a place that has the same name in every table.
#[inline(always)]
fn start_atom(atom: AtomId, atoms: &Atoms) -> AtomId
    ensures same { result ≡ atom }
    ensures table { IsTable atoms.now }
{
    let _count = atoms.len();
    atom
}

/// The atom of a name.
#[inline(always)]
fn intern(alloc: Global, text: &str, label: Label, atoms: &mut Atoms) -> Result<AtomId, NoMemory>
    requires { IsLabel text.now label }
    ensures place { IfOk result (λ atom.
        slice_get atoms.new atom.at ≡ Some (label_name text.now label)) }
    ensures names { OnOk result (atoms.new ≡ with_name atoms.old (label_name text.now label)) }
    ensures grows { Grows atoms.old atoms.new }
{
    match label {
        Label::Written { kind, from, to } => {
            intern_token(alloc, text, Token { kind, from, to }, atoms)
        }
        Label::EmptyList => Ok(start_atom(EMPTY_LIST, atoms)),
        Label::Braces => Ok(start_atom(BRACES, atoms)),
        Label::Comma => Ok(start_atom(CONJUNCTION, atoms)),
    }
}

/// Adds cells side by side.
#[inline(always)]
fn add_all(cells: &mut Cells, items: &[Cell]) -> Result<(), NoMemory>
    requires { AllBefore (length cells.old.items) items.now }
    ensures { OnOk result (cells.new.items ≡ cells.old.items ++ items.now) }
{
    for item in items {
        cells.push(*item)?;
    }
    Ok(())
}

/// Makes a compound of the last terms.
fn gather(making: &mut Making, name: AtomId, count: u8) -> Result<(), NoMemory>
    requires some { 0 < count }
    requires enough { count ≤ length making.old.made.items }
    requires stands { AllBefore (length making.old.cells.items) making.old.made.items }
    ensures { OnOk result (IsGathered name count making.old making.new) }
{
    let first = Ref {
        at: making.cells.len(),
    };
    let start = making.made.len() - count as usize;
    add_all(&mut making.cells, &making.made[start..])?;
    making.made.truncate(start);
    making.made.push(Cell::Comp { name, first, count })?;
    Ok(())
}

/// Makes the last term the tail of a list of so many terms before it.
fn link(making: &mut Making, cell: AtomId, count: usize) -> Result<(), NoMemory>
    requires enough { count < length making.old.made.items }
    requires stands { AllBefore (length making.old.cells.items) making.old.made.items }
    ensures made { OnOk result ((names : List Name) (trees : List Tree) →
        slice_get names cell.at ≡ Some (codes ".") → IsMade names making.old trees →
        IsMade names making.new (linked count trees)) }
    ensures variables { OnOk result (making.new.variables ≡ making.old.variables) }
{
    'links: for _ in 0..count {
        gather(making, cell, 2)?;
    }
    Ok(())
}

/// Takes a step.
#[inline(always)]
fn take_step(
    alloc: Global,
    text: &str,
    step: Step,
    atoms: &mut Atoms,
    making: &mut Making,
) -> Result<(), NoMemory>
    requires ready { IsReady text.now (length making.old.made.items) step }
    requires stands { AllBefore (length making.old.cells.items) making.old.made.items }
    requires room { making.old.variables.vars + 1 < 2 ^ 64 }
    ensures made { OnOk result ((trees : List Tree) → IsMade atoms.old making.old trees →
        IsMade atoms.new making.new (act text.now step trees)) }
    ensures names { OnOk result ((trees : List Tree) →
        AddsOnly (λ name. writes_any name (act text.now step trees)) atoms.old atoms.new) }
    ensures room { OnOk result (making.new.variables.vars ≤ making.old.variables.vars + 1) }
    ensures grows { Grows atoms.old atoms.new }
{
    match step {
        Step::Variable(token) => {
            let number = making.variables.number(plain_name(text, &token))?;
            making.made.push(Cell::Var(number))?;
        }
        Step::Integer(value) => making.made.push(Cell::Int(value))?,
        Step::Atom(label) => {
            let name = intern(alloc, text, label, atoms)?;
            making.made.push(Cell::Atom(name))?;
        }
        Step::Compound(count, label) => {
            let name = intern(alloc, text, label, atoms)?;
            gather(making, name, count)?;
        }
        Step::List(count) => link(making, start_atom(LIST_CELL, atoms), count)?,
    }
    Ok(())
}

/// The most cells that room is made for before any is made.
const MOST_ROOM: usize = 1024;

/// How many terms room is made for that are not among the cells yet.
const USUAL_MADE: usize = 8;

/// Nothing made yet, with room for the cells of so many steps: each makes one, and a list makes two
/// for each of its elements.
fn empty(alloc: Global, steps: usize) -> Result<Making, NoMemory>
    ensures cells { IfOk result (λ making. making.cells.items ≡ []) }
    ensures made { IfOk result (λ making. making.made.items ≡ []) }
    ensures variables { IfOk result (λ making. making.variables ≡ no_numbers) }
{
    let mut making = Making {
        cells: Cells::new(alloc),
        made: Vec::new(alloc),
        variables: Variables::new(alloc),
    };
    making.cells.reserve(2 * steps.min(MOST_ROOM))?;
    making.made.reserve(USUAL_MADE)?;
    Ok(making)
}

/// The cells of the term that these steps make.
pub fn build(
    alloc: Global,
    text: &str,
    steps: &[Step],
    atoms: &mut Atoms,
) -> Result<(Cells, Ref, Variables), NoMemory>
    requires ready { AreReady text.now [] steps.now }
    requires some { 0 < length (trees_of text.now steps.now) }
    ensures built { IfOk result (λ b. (tree : Tree) → trees_of text.now steps.now ≡ tree ∷ [] →
        IsBuilt atoms.new b.0.items b.1.at b.2 tree) }
    ensures names { OnOk result
        (AddsOnly (λ name. writes_any name (trees_of text.now steps.now)) atoms.old atoms.new) }
    ensures grows { Grows atoms.old atoms.new }
{
    let mut making = empty(alloc, steps.len())?;
    for step in steps {
        take_step(alloc, text, *step, atoms, &mut making)?;
    }
    let last = making.made[0];
    let root = making.cells.push(last)?;
    Ok((making.cells, root, making.variables))
}
