//! What a run holds of the world that it stands at.

ghost use Rattle.std.specs.Prelude.{◌≡◌, [], IfOk};
ghost use Rattle.tp_state.specs.Start.{main_with, waiting_at};
ghost use Rattle.tp_state.specs.State.{plain_of};

use std::alloc::Global;
use tp_calendar::Calendar;
use tp_control::{Frames, Item};
use tp_history::Events;
use tp_log::Log;
use tp_mail::Boxes;
use tp_procs::Procs;
use tp_store::Store;
use tp_terms::symbols::MAIN;
use tp_terms::{ItemId, Limit, NoMemory, Proc, ProcStatus, Ref, Slot};

/// The contents of the one world that a run stands at, with the log by which acts are taken back.
/// `plain_of` of specs/State.antt is the world's contents, `held_of` all.
#[derive(Drop)]
pub struct State {
    /// Terms and bindings.
    pub store: Store,
    /// What processes have to do.
    pub frames: Frames,
    /// The processes by their numbers.
    pub procs: Procs,
    /// The calendar, in order.
    pub calendar: Calendar,
    /// The messages of each process.
    pub boxes: Boxes,
    /// The history.
    pub events: Events,
    /// The acts so far.
    pub log: Log,
    /// The simulated time.
    pub clock: i64,
    /// The number of the next entry of the calendar.
    pub insertion: u64,
    /// The number of the running process, if one runs.
    pub running: Option<usize>,
    /// What the running process has to do. It stands in the list of processes only once the
    /// process goes on later.
    pub items: Option<ItemId>,
}

/// The process `main`, which waits for its start.
fn main_with(items: ItemId) -> Proc
    ensures { result ≡ main_with items }
{
    Proc {
        name: MAIN,
        end: Limit::Inf,
        started: false,
        status: ProcStatus::Scheduled,
        items: Some(items),
    }
}

impl State {
    /// Contents in which `main` waits for its start with a goal.
    ///
    /// Answers `NoMemory` where memory is refused. There is no state then.
    pub fn waiting(alloc: Global, store: Store, goal: Ref) -> Result<State, NoMemory>
        ensures plain { IfOk result (λ s. plain_of s ≡ waiting_at store goal) }
        ensures log { IfOk result (λ s. s.log ≡ []) }
    {
        let mut log = Log::new(alloc);
        let mut frames = Frames::new(alloc);
        let item = Item::Goal { goal, barrier: 0 };
        let first = frames.push(item, None)?;
        let mut procs = Procs::new(alloc);
        let pid = procs.make(main_with(first), &mut log)?;
        let mut calendar = Calendar::new(alloc);
        let slot = Slot {
            time: 0,
            number: 0,
            pid,
        };
        calendar.put(slot, &mut log)?;
        let mut boxes = Boxes::new(alloc);
        boxes.add_box(&mut log)?;
        log.clear();
        Ok(State {
            store,
            frames,
            procs,
            calendar,
            boxes,
            events: Events::new(alloc),
            log,
            clock: 0,
            insertion: 1,
            running: None,
            items: None,
        })
    }
}
