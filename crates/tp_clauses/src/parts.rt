//! What a base is made of.

ghost use Rattle.std.specs.Prelude.{◌≡◌, ◌<◌, ◌+◌, ◌^◌, length, map, slice_get, Some, IfOk, OnOk};
ghost use Rattle.tp_parse.specs.Ops.{table_of};
ghost use Rattle.tp_parse.specs.Table.{start_table};
ghost use Rattle.tp_clauses.specs.Bodies.{TellsBody};
ghost use Rattle.tp_clauses.specs.Contents.{ViewFits};
ghost use Rattle.tp_clauses.specs.Kinds.{key_of};
ghost use Rattle.tp_clauses.specs.Moved.{moved};
ghost use Rattle.tp_clauses.specs.Parts.{AddsClause, IsEmpty, IsParts, Longer};

use crate::append::append;
use crate::base::{ClauseId, ClauseView};
use crate::index::Index;
use crate::kind::Key;
use std::alloc::Global;
use tp_parse::Ops;
use tp_store::Store;
use tp_terms::{Cells, NoMemory, Ref};

/// The clauses in text order, a store of their cells in which no variable is bound, their places by
/// name and number of arguments, and the table of operators.
#[derive(Drop)]
pub struct Parts {
    /// The cells.
    pub store: Store,
    /// The clauses.
    pub clauses: Vec<ClauseView>,
    /// The place of each clause among those of its name and number of arguments.
    pub ranks: Vec<usize>,
    /// The places of the clauses of each name and number of arguments.
    pub index: Index<Key>,
    /// The operators.
    pub ops: Ops,
}

/// The parts of a base of no clause, with the operators of the start.
pub fn empty(alloc: Global) -> Result<Parts, NoMemory>
    ensures { IfOk result IsEmpty }
{
    Ok(Parts {
        store: Store::new(alloc),
        clauses: Vec::new(alloc),
        ranks: Vec::new(alloc),
        index: Index::new(alloc),
        ops: Ops::start(alloc)?,
    })
}

/// Adds all cells of `more` behind the others, and answers how far their places are moved on. Want
/// of memory leaves some of them.
pub fn add_cells(parts: &mut Parts, more: &Cells) -> Result<usize, NoMemory>
    requires { IsParts parts.old }
    ensures by { IfOk result (λ by. by ≡ length parts.old.store.cells) }
    ensures longer { OnOk result (Longer parts.old parts.new
        (map (moved (length parts.old.store.cells)) more.now.items)) }
    ensures fits { OnOk result (length parts.old.store.cells + length more.now.items < 2 ^ 64) }
{
    append(&mut parts.store, more)
}

/// The place of the body of a term, where it has one.
pub fn body_of(parts: &mut Parts, term: Ref) -> Result<Option<Ref>, NoMemory>
    requires parts { IsParts parts.old }
    requires within { term.at < length parts.old.store.cells }
    ensures { IfOk result (TellsBody parts.old parts.new term) }
{
    parts.store.body(term)
}

/// Adds a clause whose cells stand. Want of memory may leave some of it.
pub fn add_clause(parts: &mut Parts, view: ClauseView, key: Key) -> Result<(), NoMemory>
    requires parts { IsParts parts.old }
    requires fits { ViewFits parts.old.store.cells view }
    requires key { key_of (slice_get parts.old.store.cells (view.head).at) ≡ Some key }
    ensures { OnOk result (AddsClause parts.old parts.new view) }
{
    let id = ClauseId {
        at: parts.clauses.len(),
    };
    let alloc = *parts.clauses.allocator();
    let rank = parts.index.add(alloc, key, id)?;
    parts.ranks.push(rank)?;
    parts.clauses.push(view)?;
    Ok(())
}
