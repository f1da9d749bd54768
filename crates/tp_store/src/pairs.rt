//! Lists of places that are still to be looked at: a list in place of recursion.

ghost use Rattle.std.specs.Prelude.{◌≡◌, ℕ, ◌+◌, ◌^◌, ◌<◌, true, false, List, [], ◌∷◌, ◌++◌};
ghost use Rattle.std.specs.Prelude.{length, reverse, OnOk, IfOk};
ghost use Rattle.tp_terms.specs.Term.{Name, occurs};
ghost use Rattle.tp_terms.specs.Shown.{StandsBefore};
ghost use Rattle.tp_store.specs.Contents.{Contents, IsStore, seen};
ghost use Rattle.tp_store.specs.Chain.{IsChains, IsEnd, contents_of};
ghost use Rattle.tp_store.specs.Work.{places_from, pairs_from, VisitStep, CellStep, WorkStep};
ghost use Rattle.tp_store.specs.Work.{ArePairsIn, IsConstant, constants_eq};

use crate::chains::{Chains, End};
use tp_terms::{AtomId, Cell, NoMemory, Ref};

/// What a pair of places asks for.
#[derive(Clone, Copy)]
pub enum Pair {
    /// Nothing more.
    Same,
    /// What can't be.
    Clash,
    /// This variable bound to this place.
    Bind(u64, Ref),
}

/// Adds adjacent places to a list.
fn push_places(work: &mut Vec<Ref>, first: Ref, count: u8) -> Result<(), NoMemory>
    requires { first.at + count < 2 ^ 64 }
    ensures { OnOk result (work.new.items ≡ work.old.items ++ places_from first.at count) }
{
    for k in 0..count {
        work.push(Ref {
            at: first.at + k as usize,
        })?;
    }
    Ok(())
}

/// Adds the pairs of two rows of adjacent places to a list from which the last pair is taken first,
/// so that the first of these is.
pub fn push_rows(
    work: &mut Vec<(Ref, Ref)>,
    left: Ref,
    right: Ref,
    count: u8,
) -> Result<(), NoMemory>
    requires left { left.at + count < 2 ^ 64 }
    requires right { right.at + count < 2 ^ 64 }
    ensures { OnOk result
        (reverse work.new.items ≡ pairs_from left.at right.at count ++ reverse work.old.items) }
{
    'rows: for k in 0..count {
        let next = Ref {
            at: left.at + (count - 1 - k) as usize,
        };
        let other = Ref {
            at: right.at + (count - 1 - k) as usize,
        };
        work.push((next, other))?;
    }
    Ok(())
}

/// Looks for a variable in the cell at the end of a chain. The places of further terms go to the
/// list.
fn visit(number: u64, end: End, work: &mut Vec<Ref>) -> Result<bool, NoMemory>
    requires { StandsBefore end.place.at end.cell }
    ensures { IfOk result
        (λ found. (c : Contents) → IsStore c → IsEnd c end →
        VisitStep c number end.cell work.old.items work.new.items found) }
{
    match end.cell {
        Cell::Var(other) => Ok(other == number),
        Cell::Comp { first, count, .. } => {
            push_places(work, first, count)?;
            Ok(false)
        }
        _ => Ok(false),
    }
}

/// Whether the closed mark, or the end of a place's chain alone, shows that a variable doesn't
/// occur in the place's term.
fn is_apart(chains: &Chains, number: u64, place: Ref) -> bool
    requires chains { IsChains chains.now }
    requires place { place.at < length chains.now.cells.items }
    ensures { result ≡ true → (names : List Name) →
        occurs number (seen names (contents_of chains.now) place.at) ≡ false }
{
    if number >= chains.closed.vars && place.at < chains.closed.cells {
        return true;
    }
    match chains.end(place).cell {
        Cell::Var(other) => other != number,
        Cell::Int(_) | Cell::Atom(_) => true,
        Cell::Comp { .. } => false,
    }
}

/// Whether a variable occurs in the term of a place, under the bindings. The time is constant for
/// an integer or an atom, and for a place before the closed mark where the variable was claimed
/// after it. What the list held is dropped.
pub fn occurs_at(
    chains: &Chains,
    work: &mut Vec<Ref>,
    number: u64,
    place: Ref,
) -> Result<bool, NoMemory>
    requires chains { IsChains chains.now }
    requires place { place.at < length chains.now.cells.items }
    ensures { IfOk result
        (λ found. (names : List Name) →
        found ≡ occurs number (seen names (contents_of chains.now) place.at)) }
{
    if is_apart(chains, number, place) {
        return Ok(false);
    }
    work.clear();
    work.push(place)?;
    'visits: while let Some(at) = work.pop() {
        if visit(number, chains.end(at), work)? {
            return Ok(true);
        }
    }
    Ok(false)
}

/// Compares an unbound variable with the end of another chain. The younger of two variables takes
/// the older's name.
fn compare_variable(number: u64, place: Ref, other: End) -> Pair
    ensures { (c : Contents) (work : List (Ref × Ref)) →
        IsEnd c (record { place = place; cell = Cell.Var number }) → IsEnd c other →
        CellStep c (Cell.Var number) other.cell work work result }
{
    match other.cell {
        Cell::Var(second) => {
            if number < second {
                Pair::Bind(second, place)
            } else if second < number {
                Pair::Bind(number, other.place)
            } else {
                Pair::Same
            }
        }
        _ => Pair::Bind(number, other.place),
    }
}

/// Whether two cells are the same integer or the same atom.
pub fn same_constant(left: Cell, right: Cell) -> bool
    ensures { result ≡ constants_eq left right }
{
    match (left, right) {
        (Cell::Int(value), Cell::Int(other)) => value == other,
        (Cell::Atom(name), Cell::Atom(other)) => name.at == other.at,
        _ => false,
    }
}

/// Compares an integer or an atom with the end of another chain.
fn compare_constant(constant: End, other: End) -> Pair
    requires { IsConstant constant.cell }
    ensures { (c : Contents) (work : List (Ref × Ref)) → IsEnd c constant → IsEnd c other →
        CellStep c constant.cell other.cell work work result }
{
    if let Cell::Var(number) = other.cell {
        return Pair::Bind(number, constant.place);
    }
    if same_constant(constant.cell, other.cell) {
        Pair::Same
    } else {
        Pair::Clash
    }
}

/// Compares a compound, given by its name, its arguments and its place, with the end of another
/// chain. The pairs of arguments go to the list, the first one to be taken first.
fn compare_compound(
    name: AtomId,
    args: (Ref, u8),
    place: Ref,
    other: End,
    work: &mut Vec<(Ref, Ref)>,
) -> Result<Pair, NoMemory>
    requires before { StandsBefore place.at (Cell.Comp name args.0 args.1) }
    requires other { StandsBefore other.place.at other.cell }
    ensures { IfOk result
        (λ pair. (c : Contents) →
        IsEnd c (record { place = place; cell = Cell.Comp name args.0 args.1 }) →
        IsEnd c other →
        CellStep c (Cell.Comp name args.0 args.1) other.cell work.old.items work.new.items pair) }
{
    match other.cell {
        Cell::Var(number) => Ok(Pair::Bind(number, place)),
        Cell::Comp {
            name: second,
            first,
            count,
        } => {
            if name.at != second.at || args.1 != count {
                return Ok(Pair::Clash);
            }
            push_rows(work, args.0, first, count)?;
            Ok(Pair::Same)
        }
        _ => Ok(Pair::Clash),
    }
}

/// Compares the ends of two chains. Further pairs go to the list.
fn compare(left: End, right: End, work: &mut Vec<(Ref, Ref)>) -> Result<Pair, NoMemory>
    requires left { StandsBefore left.place.at left.cell }
    requires right { StandsBefore right.place.at right.cell }
    ensures { IfOk result
        (λ pair. (c : Contents) → IsEnd c left → IsEnd c right →
        CellStep c left.cell right.cell work.old.items work.new.items pair) }
{
    match left.cell {
        Cell::Var(number) => Ok(compare_variable(number, left.place, right)),
        Cell::Comp { name, first, count } => {
            compare_compound(name, (first, count), left.place, right, work)
        }
        _ => Ok(compare_constant(left, right)),
    }
}

/// Takes pairs from the list until one asks for a binding.
pub fn next_binding(chains: &Chains, work: &mut Vec<(Ref, Ref)>) -> Result<Pair, NoMemory>
    requires chains { IsChains chains.now }
    requires places { ArePairsIn chains.now.cells.items work.old.items }
    ensures { IfOk result
        (λ pair. WorkStep (contents_of chains.now) work.old.items work.new.items pair) }
{
    'pairs: while let Some((left, right)) = work.pop() {
        match compare(chains.end(left), chains.end(right), work)? {
            Pair::Same => {}
            asked => return Ok(asked),
        }
    }
    Ok(Pair::Same)
}
