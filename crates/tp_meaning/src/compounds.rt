//! Compounds of one and two arguments, whatever holds them.

ghost use Rattle.std.specs.Prelude.{◌<◌, length, OnErr, IfOk};
ghost use Rattle.tp_terms.specs.Term.{Atom, Comp, NoMore, More};
ghost use Rattle.tp_terms.specs.Shown.{name_at};
ghost use Rattle.tp_meaning.specs.Heap.{IsHeap, CanStand, AddsCells, Makes, cell_shown};

use crate::heap::Terms;
use tp_terms::{AtomId, Cell, NoMemory, Ref};

/// The cell of a compound of one argument, which is placed. The cell itself isn't.
///
/// # Errors
/// `NoMemory` where memory was refused, and then there may be further cells.
pub fn compound_of_one<T: Terms>(
    terms: &mut T,
    name: AtomId,
    argument: Cell,
) -> Result<Cell, NoMemory>
    requires heap { IsHeap (T.heap terms.old) }
    requires name { name.at < length (T.heap terms.old).names }
    requires argument { CanStand (T.heap terms.old) argument }
    ensures made { IfOk result (λ c. Makes (T.heap terms.old) (T.heap terms.new) c
        (Comp (name_at (T.heap terms.old).names name.at)
        (More (cell_shown (T.heap terms.old) argument) NoMore))) }
    ensures err { OnErr result (AddsCells (T.heap terms.old) (T.heap terms.new)) }
    ensures heap { IsHeap (T.heap terms.new) }
{
    let first = terms.place(argument)?;
    Ok(Cell::Comp {
        name,
        first,
        count: 1,
    })
}

/// The cell of a compound of two arguments, which are placed. The cell itself isn't.
///
/// # Errors
/// `NoMemory` where memory was refused, and then there may be further cells.
pub fn compound_of_two<T: Terms>(
    terms: &mut T,
    name: AtomId,
    left: Cell,
    right: Cell,
) -> Result<Cell, NoMemory>
    requires heap { IsHeap (T.heap terms.old) }
    requires name { name.at < length (T.heap terms.old).names }
    requires left { CanStand (T.heap terms.old) left }
    requires right { CanStand (T.heap terms.old) right }
    ensures made { IfOk result (λ c. Makes (T.heap terms.old) (T.heap terms.new) c
        (Comp (name_at (T.heap terms.old).names name.at)
        (More (cell_shown (T.heap terms.old) left)
        (More (cell_shown (T.heap terms.old) right) NoMore)))) }
    ensures err { OnErr result (AddsCells (T.heap terms.old) (T.heap terms.new)) }
    ensures heap { IsHeap (T.heap terms.new) }
{
    let first = terms.place(left)?;
    terms.place(right)?;
    Ok(Cell::Comp {
        name,
        first,
        count: 2,
    })
}
