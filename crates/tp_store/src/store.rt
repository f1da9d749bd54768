//! The store.

ghost use Rattle.std.specs.Prelude.{◌≡◌, ◌≢◌, ℕ, ◌+◌, ◌<◌, ◌≤◌, List, [], length, true, Ok, Some};
ghost use Rattle.std.specs.Prelude.{None, is_some, option_map, OnOk, OnErr, IfOk, IfSome, IfNone};
ghost use Rattle.std.specs.Prelude.{if◌then◌else◌};
ghost use Rattle.tp_terms.specs.Term.{Name};
ghost use Rattle.tp_terms.specs.Names.{IsTable};
ghost use Rattle.tp_terms.specs.Shown.{AreNamed, IsNamed, StandsBefore, shows};
ghost use Rattle.tp_terms.specs.Binds.{Fits};
ghost use Rattle.tp_meaning.specs.Body.{body};
ghost use Rattle.tp_meaning.specs.Clauses.{renamed};
ghost use Rattle.tp_meaning.specs.Subst.{mgu};
ghost use Rattle.tp_store.specs.Contents.{AddsCells, IsStore, Names, IsNumbered, IsUnbound};
ghost use Rattle.tp_store.specs.Contents.{CanGoBack, FindsUnifier, IsUnifiable, Keeps, cut_to_mark};
ghost use Rattle.tp_store.specs.Contents.{with_cell, with_vars, seen, seen_cell, subst_of};
ghost use Rattle.tp_store.specs.Copy.{IsClaimed, IsLast, NamesBoth, ShowsCopy};
ghost use Rattle.tp_store.specs.Logged.{FindsHead, HeadIsUnifiable, IsBound, KeepsTerms, Logs};
ghost use Rattle.tp_store.specs.Logged.{LogsHead, unbound};
ghost use Rattle.tp_store.specs.Joined.{HasRoom, IsCallable, KeepsAtoms, ShowsMore};
ghost use Rattle.tp_store.specs.Ordered.{IsOrder};
ghost use Rattle.tp_store.specs.Renamed.{AddsTerms, Copies};
ghost use Rattle.tp_store.specs.Bodies.{AsksMemory, FindsBody, IsWithin, KeepsNames, KeepsOwn};

use crate::block::copy_block;
use crate::body::body_of;
use crate::chains::Chains;
use crate::copy::instance;
use crate::head::{Variant, head_unifiable, unify_head};
use crate::join::goal_with;
use crate::logged::unify_logged;
use crate::order::compare;
use crate::rename::copy;
use crate::solve::unifiable;
use std::alloc::Global;
use std::cmp::Ordering;
use std::marker::Model;
use tp_log::Log;
use tp_terms::symbols::CALL;
use tp_terms::{Atoms, Binds, Cell, Cells, NoMemory, Ref, StoreMark};

/// Terms in cells, and what their variables are bound to. Contracts see its cells, its bindings and
/// how many variable numbers were claimed; `subst_of` of specs/Contents.antt is the substitution
/// that the bindings stand for, and `IsStore` tells the facts that hold of every store.
#[derive(Drop)]
pub struct Store {
    chains: Chains,
}

impl Model for Store {
    ghost use Rattle.tp_store.specs.Contents.{Contents};
    ghost use Rattle.tp_store.specs.Chain.{IsChains, contents_of};

    ghost Value = { Contents };

    ghost view = { λ s. contents_of s.chains };

    ghost invariant = { λ s. IsChains s.chains };
}

impl Store {
    /// No terms, and no variable numbers. Takes no memory.
    pub fn new(alloc: Global) -> Store
        ensures { result ≡ record { cells = []; pairs = []; vars = 0 } }
    {
        Store {
            chains: Chains::new(alloc),
        }
    }

    /// The first of `n` new variable numbers.
    ///
    /// Answers `NoMemory` where the memory for them isn't had, and then the store is as before.
    pub fn claim(&mut self, n: u64) -> Result<u64, NoMemory>
        ensures first { IfOk result (λ first. first ≡ self.old.vars) }
        ensures value { OnOk result (self.new ≡ with_vars self.old n) }
        ensures err { OnErr result (self.new ≡ self.old) }
        ensures store { IsStore self.new }
    {
        self.chains.claim(n)
    }

    /// A place for a new unbound variable, of the next number.
    ///
    /// Answers `NoMemory` where the memory for it isn't had, and then the store is as before.
    pub fn fresh(&mut self) -> Result<Ref, NoMemory>
        ensures place { IfOk result (λ at. at.at ≡ length self.old.cells) }
        ensures value { OnOk result
            (self.new ≡ with_cell (with_vars self.old 1) (Cell.Var self.old.vars)) }
        ensures keeps { OnOk result (Keeps self.old self.new) }
        ensures err { OnErr result (self.new ≡ self.old) }
        ensures store { IsStore self.new }
    {
        self.chains.fresh()
    }

    /// Adds a cell behind the others and answers its place. No place that stood shows another term
    /// afterwards, under the bindings or without them.
    ///
    /// Answers `NoMemory` where the memory for it isn't had, and then the store is as before.
    pub fn place(&mut self, cell: Cell) -> Result<Ref, NoMemory>
        requires before { StandsBefore (length self.old.cells) cell }
        requires numbered { IsNumbered self.old.vars cell }
        ensures place { IfOk result (λ at. at.at ≡ length self.old.cells) }
        ensures value { OnOk result (self.new ≡ with_cell self.old cell) }
        ensures keeps { OnOk result (Keeps self.old self.new) }
        ensures err { OnErr result (self.new ≡ self.old) }
        ensures store { IsStore self.new }
    {
        self.chains.place(cell)
    }

    /// A place for the term of `root` in `from`, its variable `k` as number `base + k`. No place
    /// that stood shows another term afterwards. The condition `claimed` is that these numbers were
    /// claimed.
    ///
    /// Answers `NoMemory` where the memory for it isn't had, and then the store is as before.
    pub fn instance(&mut self, from: &Cells, root: Ref, base: u64) -> Result<Ref, NoMemory>
        requires root { root.at < length from.now.items }
        requires claimed { IsClaimed from.now.items root.at base self.old.vars }
        ensures adds { AddsCells self.old self.new }
        ensures keeps { Keeps self.old self.new }
        ensures place { IfOk result (λ at. at.at < length self.new.cells) }
        ensures shown { IfOk result (ShowsCopy from.now.items root base self.new.cells) }
        ensures last { IfOk result
            (λ at. IsLast self.old.cells self.new.cells (shows [] from.now.items root.at) at.at) }
        ensures err { OnErr result (self.new ≡ self.old) }
        ensures store { IsStore self.new }
        ensures named { OnOk result (NamesBoth from.now.items self.old.cells self.new.cells) }
    {
        let alloc = *self.chains.spare.pairs.allocator();
        instance(&mut self.chains, alloc, from, root, base)
    }

    /// A place for the term of `root` in `from`, as `instance` makes it. All cells from the lowest
    /// of the term to its last are copied in one walk, so it is fast for a term whose cells stand
    /// together, and adds cells that the term doesn't have where they don't. The condition
    /// `claimed` is that the numbers of the variables were claimed.
    ///
    /// Answers `NoMemory` where the memory for it isn't had, and then the store is as before.
    pub fn block(&mut self, from: &Cells, root: Ref, base: u64) -> Result<Ref, NoMemory>
        requires root { root.at < length from.now.items }
        requires claimed { IsClaimed from.now.items root.at base self.old.vars }
        ensures adds { AddsCells self.old self.new }
        ensures keeps { Keeps self.old self.new }
        ensures place { IfOk result (λ at. at.at < length self.new.cells) }
        ensures shown { IfOk result (ShowsCopy from.now.items root base self.new.cells) }
        ensures err { OnErr result (self.new ≡ self.old) }
        ensures store { IsStore self.new }
        ensures named { OnOk result (NamesBoth from.now.items self.old.cells self.new.cells) }
    {
        let copy = copy_block(&mut self.chains, from, root, base)?;
        Ok(copy.place)
    }

    /// A place for a copy of the term of a place, seen under the bindings, with new variables: they
    /// have the next numbers, in order of first occurrence, which are claimed (`copy_term` of
    /// ISO/IEC 13211-1, clause 8.5.4). No place that stood shows another term afterwards.
    ///
    /// Answers `NoMemory` where the memory for it isn't had, and then the store is as before.
    pub fn copy(&mut self, at: Ref) -> Result<Ref, NoMemory>
        requires { at.at < length self.old.cells }
        ensures copied { IfOk result (Copies self.old self.new at) }
        ensures place { IfOk result (λ copy. copy.at < length self.new.cells) }
        ensures adds { AddsTerms self.old self.new }
        ensures keeps { Keeps self.old self.new }
        ensures err { OnErr result (self.new ≡ self.old) }
        ensures store { IsStore self.new }
        ensures named { OnOk result (KeepsAtoms self.old self.new) }
    {
        let alloc = *self.chains.spare.pairs.allocator();
        copy(&mut self.chains, alloc, at)
    }

    /// What this store takes its memory from.
    pub fn allocator(&self) -> Global {
        *self.chains.spare.pairs.allocator()
    }

    /// The cells of all places.
    pub fn cells(&self) -> &Cells
        ensures cells { result.now.items ≡ self.now.cells }
        ensures fits { Fits self.now.pairs self.now.cells }
        ensures store { IsStore self.now }
    {
        &self.chains.cells
    }

    /// The cell that a place shows once bindings are followed: no bound variable.
    pub fn top(&self, at: Ref) -> Cell
        requires { at.at < length self.now.cells }
        ensures seen { (names : List Name) →
            seen_cell names self.now result ≡ seen names self.now at.at }
        ensures unbound { IsUnbound self.now.pairs result }
        ensures before { StandsBefore (length self.now.cells) result }
        ensures numbered { IsNumbered self.now.vars result }
        ensures named { (n : ℕ) → AreNamed n self.now.cells → IsNamed n result }
    {
        self.chains.end(at).cell
    }

    /// Makes the terms of two places equal, by the fewest bindings that do, and adds an entry to
    /// the log for each binding, the oldest first: the most general unifier over the substitution
    /// so far, with occurs check (ISO/IEC 13211-1, clause 7.3). Of two unbound variables the
    /// younger takes the older's name. False exactly where there is no unifier; then nothing is
    /// bound or logged.
    ///
    /// Answers `NoMemory` where the memory for it isn't had, and then nothing is bound or logged.
    pub fn unify(&mut self, left: Ref, right: Ref, log: &mut Log) -> Result<bool, NoMemory>
        requires left { left.at < length self.old.cells }
        requires right { right.at < length self.old.cells }
        ensures found { IfOk result (FindsUnifier self.old self.new left right) }
        ensures logged { Logs self.old self.new log.old log.new }
        ensures unchanged { result ≢ Ok true → self.new ≡ self.old }
        ensures log_stays { result ≢ Ok true → log.new ≡ log.old }
        ensures store { IsStore self.new }
    {
        let alloc = *self.chains.spare.pairs.allocator();
        unify_logged(&mut self.chains, alloc, left, right, log)
    }

    /// Makes the term of `goal` equal to that of `head`, and adds an entry to the log for each
    /// binding, the oldest first: the most general unifier over the substitution so far, with
    /// occurs check. The condition `claimed` is that the numbers of the head's variables were
    /// claimed. No place that stood shows another term afterwards. False exactly where there is no
    /// unifier; then nothing is bound, added or logged.
    ///
    /// Answers `NoMemory` where the memory for it isn't had, and then nothing is bound, added or
    /// logged.
    pub fn unify_head(
        &mut self,
        goal: Ref,
        head: Variant<'_>,
        log: &mut Log,
    ) -> Result<bool, NoMemory>
        requires goal { goal.at < length self.old.cells }
        requires head { head.root.at < length head.cells.now.items }
        requires claimed { IsClaimed head.cells.now.items head.root.at head.base self.old.vars }
        ensures found { IfOk result
            (FindsHead self.old self.new goal head.entry.cells.now.items head.entry.root
            head.entry.base) }
        ensures logged { LogsHead self.old self.new log.old log.new }
        ensures unchanged { result ≢ Ok true → self.new ≡ self.old }
        ensures log_stays { result ≢ Ok true → log.new ≡ log.old }
        ensures terms { OnOk result (KeepsTerms self.old.cells self.new.cells) }
        ensures named { OnOk result
            (NamesBoth head.entry.cells.now.items self.old.cells self.new.cells) }
        ensures store { IsStore self.new }
    {
        unify_head(&mut self.chains, goal, head, log)
    }

    /// What `unify_head` would answer. Nothing is bound, added or logged. The condition `claimed`
    /// is that the numbers of the variables were claimed.
    ///
    /// Answers `NoMemory` where the memory for it isn't had.
    pub fn head_unifiable(&mut self, goal: Ref, head: Variant<'_>) -> Result<bool, NoMemory>
        requires goal { goal.at < length self.old.cells }
        requires head { head.root.at < length head.cells.now.items }
        requires claimed { IsClaimed head.cells.now.items head.root.at head.base self.old.vars }
        ensures found { IfOk result
            (HeadIsUnifiable self.old goal head.entry.cells.now.items head.entry.root
            head.entry.base) }
        ensures unchanged { self.new ≡ self.old }
        ensures store { IsStore self.new }
    {
        head_unifiable(&mut self.chains, goal, head)
    }

    /// Takes the newest binding of a bound variable back; all else stays. Takes no memory. The
    /// newest binding of all takes the least time.
    pub fn undo_bind(&mut self, number: u64)
        requires { IsBound self.old.pairs number }
        ensures value { self.new ≡ unbound number self.old }
        ensures store { IsStore self.new }
    {
        self.chains.undo_bind(number);
    }

    /// What `unify` would answer. Nothing is bound.
    ///
    /// Answers `NoMemory` where the memory for it isn't had.
    pub fn unifiable(&mut self, left: Ref, right: Ref) -> Result<bool, NoMemory>
        requires left { left.at < length self.old.cells }
        requires right { right.at < length self.old.cells }
        ensures found { IfOk result (IsUnifiable self.old left right) }
        ensures unchanged { self.new ≡ self.old }
        ensures store { IsStore self.new }
    {
        let alloc = *self.chains.spare.pairs.allocator();
        unifiable(&mut self.chains, alloc, left, right)
    }

    /// The standard order of the terms of two places, under the bindings: variables by number, then
    /// integers by value, then atoms by their characters, then compounds by number of arguments,
    /// name and arguments from the left (ISO/IEC 13211-1, clause 7.2). The condition `named` is
    /// that each atom is of the table.
    ///
    /// Answers `NoMemory` where the memory for it isn't had.
    pub fn compare(&self, left: Ref, right: Ref, atoms: &Atoms) -> Result<Ordering, NoMemory>
        requires left { left.at < length self.now.cells }
        requires right { right.at < length self.now.cells }
        requires named { AreNamed (length atoms.now) self.now.cells }
        ensures order { IfOk result (IsOrder atoms.now self.now left right) }
        ensures store { IsStore self.now }
    {
        let alloc = *self.chains.spare.pairs.allocator();
        compare(&self.chains, alloc, left, right, atoms)
    }

    /// A place for the body of a goal, which is seen under the bindings: a variable is called. In
    /// `,`, `;` and `->` with two goals both are bodies in their turn, and every other goal is its
    /// own body (ISO/IEC 13211-1, clause 7.6.2). None exactly where it has no body: an integer
    /// stands where a goal should. A goal that is its own body stays at its place, and no cell is
    /// added.
    ///
    /// Answers `NoMemory` where the memory for it isn't had, and only for a variable and for two
    /// goals that are joined. The store is as before then, and where there is no body.
    pub fn body(&mut self, goal: Ref) -> Result<Option<Ref>, NoMemory>
        requires { goal.at < length self.old.cells }
        ensures body { IfOk result (FindsBody self.old self.new goal) }
        ensures own { IfOk result (KeepsOwn self.old self.new goal) }
        ensures memory { OnErr result (AsksMemory self.old goal) }
        ensures place { IfOk result (IsWithin self.new) }
        ensures adds { AddsCells self.old self.new }
        ensures keeps { Keeps self.old self.new }
        ensures none { IfOk result (λ found. IfNone found (self.new ≡ self.old)) }
        ensures err { OnErr result (self.new ≡ self.old) }
        ensures store { IsStore self.new }
        ensures named { OnOk result (KeepsNames CALL self.old self.new) }
    {
        let alloc = *self.chains.spare.pairs.allocator();
        body_of(&mut self.chains, alloc, goal)
    }

    /// A place for a goal with further arguments: the atom or compound that `goal` shows under the
    /// bindings, with the terms of the `count` adjacent places from `first` on behind its own
    /// arguments (ISO/IEC 13211-1:1995/Cor.2:2012, clause 8.15.4). The conditions `callable` and
    /// `room` say that it is an atom or a compound, and that its arguments and the further ones are
    /// 255 at most. No term is copied, and no place that stood shows another term afterwards.
    ///
    /// Answers `NoMemory` where the memory for it isn't had, and then the store is as before.
    pub fn join(&mut self, goal: Ref, first: Ref, count: u8) -> Result<Ref, NoMemory>
        requires goal { goal.at < length self.old.cells }
        requires callable { IsCallable self.old goal }
        requires args { first.at + count ≤ length self.old.cells }
        requires some { 0 < count }
        requires room { HasRoom self.old goal count }
        ensures shown { IfOk result (ShowsMore self.old self.new goal first count) }
        ensures place { IfOk result (λ at. at.at < length self.new.cells) }
        ensures adds { AddsCells self.old self.new }
        ensures keeps { Keeps self.old self.new }
        ensures err { OnErr result (self.new ≡ self.old) }
        ensures store { IsStore self.new }
        ensures named { OnOk result (KeepsAtoms self.old self.new) }
    {
        goal_with(&mut self.chains, goal, first, count)
    }

    /// How many cells and variable numbers there are.
    pub fn mark(&self) -> StoreMark
        ensures cells { result.cells ≡ length self.now.cells }
        ensures vars { result.vars ≡ self.now.vars }
        ensures store { IsStore self.now }
    {
        StoreMark {
            cells: self.chains.cells.len(),
            vars: self.chains.trail.variables() as u64,
        }
    }

    /// Cuts cells and variable numbers to a mark. The bindings stay. Takes no memory.
    pub fn back_to(&mut self, mark: StoreMark)
        requires { CanGoBack self.old mark }
        ensures value { self.new ≡ cut_to_mark self.old mark }
        ensures keeps { Keeps self.new self.old }
        ensures store { IsStore self.new }
    {
        self.chains.back_to(mark);
    }
}

impl Binds for Store {
    ghost bindings = { λ s. s.pairs };

    fn bound(&self, number: u64) -> Option<Ref> {
        if number >= self.chains.trail.variables() as u64 {
            return None;
        }
        self.chains.trail.get(number)
    }
}
