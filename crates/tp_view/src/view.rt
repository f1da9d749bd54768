//! Terms on a store.

use std::alloc::Global;
use std::cmp::Ordering;
use tp_log::Log;
use tp_meaning::Terms;
use tp_store::Store;
use tp_terms::{AtomId, Atoms, Cell, NoMemory, Ref};

/// A store, the log of acts on it, and the table of its names.
#[derive(Drop)]
pub struct View {
    /// Terms and bindings.
    pub store: Store,
    /// The acts so far.
    pub log: Log,
    /// The names.
    pub atoms: Atoms,
}

impl View {
    ghost use Rattle.std.specs.Prelude.{IfOk, ◌≡◌, []};
    ghost use Rattle.tp_terms.specs.StartNames.{start_names};

    /// No terms, no log, and the names of the start.
    ///
    /// # Errors
    /// `NoMemory` where memory was refused.
    pub fn start(alloc: Global) -> Result<View, NoMemory>
        ensures cells { IfOk result (λ v. v.store.cells ≡ []) }
        ensures log { IfOk result (λ v. v.log ≡ []) }
        ensures names { IfOk result (λ v. v.atoms ≡ start_names) }
    {
        let atoms = Atoms::start(alloc)?;
        Ok(View {
            store: Store::new(alloc),
            log: Log::new(alloc),
            atoms,
        })
    }
}

impl Terms for View {
    ghost use Rattle.tp_view.specs.Seen.{heap_of};

    ghost heap = { λ v. heap_of v.store v.log v.atoms };

    fn look(&self, at: Ref) -> Cell {
        // Its contract tells how many cells there are at most.
        let _mark = self.store.mark();
        self.store.top(at)
    }

    fn place(&mut self, cell: Cell) -> Result<Ref, NoMemory> {
        self.store.place(cell)
    }

    fn fresh(&mut self) -> Result<Ref, NoMemory> {
        self.store.fresh()
    }

    fn unify(&mut self, a: Ref, b: Ref) -> Result<bool, NoMemory> {
        self.store.unify(a, b, &mut self.log)
    }

    fn unifiable(&mut self, a: Ref, b: Ref) -> Result<bool, NoMemory> {
        self.store.unifiable(a, b)
    }

    fn compare(&mut self, a: Ref, b: Ref) -> Result<Ordering, NoMemory> {
        self.store.compare(a, b, &self.atoms)
    }

    fn copy(&mut self, at: Ref) -> Result<Ref, NoMemory> {
        self.store.copy(at)
    }

    fn name(&self, atom: AtomId) -> &str {
        self.atoms.name(atom)
    }

    fn intern(&mut self, name: &str) -> Result<AtomId, NoMemory> {
        self.atoms.intern(name)
    }
}
