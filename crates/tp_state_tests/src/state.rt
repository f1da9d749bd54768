//! A state that goes on, and back to its marks.

ghost use Rattle.std.specs.Prelude.{◌≡◌, [], IfOk, OnOk};
ghost use Rattle.tp_state.specs.Going.{Follows};
ghost use Rattle.tp_state.specs.State.{held_of};

use std::alloc::Global;
use std::test::Fail;
use tp_control::Item;
use tp_state::State;
use tp_store::Store;
use tp_terms::symbols::MAIN;
use tp_terms::{Binds, Cell, EventKind, Limit, NoMemory, Proc, ProcStatus, Ref};

/// Whether the first process is `main` with this start and status.
fn is_main(state: &State, started: bool, status: ProcStatus) -> bool {
    state.procs.len() > 0
        && state.name_of(0) == MAIN
        && state.has_started(0) == started
        && state.procs.get(0).status == status
}

/// Whether `main` waits, before its time.
fn waits(state: &State) -> bool {
    state.clock == -4
        && state.events.is_empty()
        && state.next_time() == Some(0)
        && state.first_marked() == None
        && state.is_any_live()
        && !state.is_any_late(6)
        && state.store.bound(0) == None
        && is_main(state, false, ProcStatus::Scheduled)
}

/// Whether `main` has started, noted a term, and is parked with an end time of 5.
fn is_parked(state: &State) -> bool {
    state.clock == 0
        && state.events.len() == 2
        && state.next_time() == None
        && state.first_marked() == Some(0)
        && state.is_any_live()
        && state.is_any_late(6)
        && state.store.bound(0) == Some(Ref { at: 0 })
        && is_main(state, true, ProcStatus::Parked { marked: true })
}

/// `main` waits with a goal, before its time.
fn waiting(alloc: Global) -> Result<State, NoMemory>
    ensures { IfOk result (λ s. s.log ≡ []) }
{
    let mut store = Store::new(alloc);
    let goal = store.place(Cell::Atom(MAIN))?;
    store.fresh()?;
    let mut state = State::waiting(alloc, store, goal)?;
    state.clock = -4;
    Ok(state)
}

/// The time comes to the first entry of the calendar, if there is one.
fn comes(state: &mut State) -> Result<usize, NoMemory>
    ensures { OnOk result (Follows (held_of state.old) (held_of state.new)) }
{
    if state.next_time().is_none() {
        return Ok(0);
    }
    state.take_slot()
}

/// A process runs.
fn runs(state: &mut State, pid: usize) -> Result<(), NoMemory>
    ensures { OnOk result (Follows (held_of state.old) (held_of state.new)) }
{
    if pid < state.procs.len() {
        state.run(pid)?;
    }
    Ok(())
}

/// A process starts.
fn opens(state: &mut State, pid: usize) -> Result<(), NoMemory>
    ensures { OnOk result (Follows (held_of state.old) (held_of state.new)) }
{
    if pid < state.procs.len() {
        state.open(pid)?;
    }
    Ok(())
}

/// The running process has a goal and a commit to do.
fn takes_items(state: &mut State) -> Result<(), NoMemory>
    ensures { OnOk result (Follows (held_of state.old) (held_of state.new)) }
{
    state.rest(None);
    state.push(Item::Commit(3))?;
    state.push_body(Some(Ref { at: 0 }), 1)?;
    Ok(())
}

/// Two places show the same, where both are there.
fn makes_equal(state: &mut State, left: Ref, right: Ref) -> Result<bool, NoMemory>
    ensures { OnOk result (Follows (held_of state.old) (held_of state.new)) }
{
    let cells = state.store.cells().len();
    if left.at < cells && right.at < cells {
        return state.unify(left, right);
    }
    Ok(false)
}

/// A process has an end time.
fn ends_at(state: &mut State, pid: usize, time: i64) -> Result<(), NoMemory>
    ensures { OnOk result (Follows (held_of state.old) (held_of state.new)) }
{
    if pid < state.procs.len() {
        let proc = state.procs.get(pid);
        let end = Limit::At(time);
        state.change(pid, Proc { end, ..proc })?;
    }
    Ok(())
}

/// A process is left with a status.
fn leaves(state: &mut State, pid: usize, status: ProcStatus) -> Result<(), NoMemory>
    ensures { OnOk result (Follows (held_of state.old) (held_of state.new)) }
{
    if pid < state.procs.len() {
        state.leave(pid, status)?;
    }
    Ok(())
}

/// The first process of the calendar starts, binds a variable, and is parked and marked.
fn goes_on(state: &mut State) -> Result<(), NoMemory>
    ensures { OnOk result (Follows (held_of state.old) (held_of state.new)) }
{
    let pid = comes(state)?;
    runs(state, pid)?;
    opens(state, pid)?;
    state.note(pid, EventKind::Note(Ref { at: 0 }))?;
    takes_items(state)?;
    makes_equal(state, Ref { at: 1 }, Ref { at: 0 })?;
    ends_at(state, pid, 5)?;
    leaves(state, pid, ProcStatus::Parked { marked: false })?;
    state.mark_others(1)?;
    Ok(())
}

/// Whether a state goes on as it is to, and is back at its marks then.
fn goes_back(state: &mut State) -> Result<bool, NoMemory>
    requires { state.old.log ≡ [] }
{
    let cells = state.store.cells().len();
    let marks = state.marks();
    goes_on(state)?;
    let went = is_parked(state);
    state.rewind(&marks);
    Ok(went && state.marks() == marks && state.store.cells().len() == cells)
}

#[test]
fn goes_on_and_back(rt: HostRuntime) -> Result<(), Fail> {
    let mut state = waiting(rt.alloc())?;
    assert!(rt; waits(&state));
    assert!(rt; goes_back(&mut state)?);
    assert!(rt; waits(&state));
    leaves(&mut state, 0, ProcStatus::Ended)?;
    assert!(rt; !state.is_any_live());
    Ok(())
}
