//! Each public call with ample memory.

use tp_log::{Entry, Log};
use tp_procs::Procs;
use tp_terms::{AtomId, Limit, NoMemory, Proc, ProcStatus};

const A: Proc = Proc {
    name: AtomId { at: 1 },
    end: Limit::At(5),
    started: false,
    status: ProcStatus::Scheduled,
    items: None,
};

const B: Proc = Proc {
    name: AtomId { at: 2 },
    end: Limit::Inf,
    started: false,
    status: ProcStatus::Parked { marked: true },
    items: None,
};

const A_ENDED: Proc = Proc {
    name: AtomId { at: 1 },
    end: Limit::At(5),
    started: true,
    status: ProcStatus::Ended,
    items: None,
};

const C: AtomId = AtomId { at: 3 };

#[test]
fn what_a_scheduler_asks(rt: HostRuntime) -> Result<(), NoMemory> {
    let mut log = Log::new(rt.alloc());
    let mut procs = Procs::new(rt.alloc());
    let first = procs.make(A, &mut log)?;
    let second = procs.make(B, &mut log)?;
    assert_eq!(rt; (first, second), (0, 1));
    assert_eq!(rt; procs.by_name(C), None);
    assert_eq!(rt; procs.by_name(B.name), Some(1));
    assert_eq!(rt; procs.earliest_end(), Some(5));
    assert_eq!(rt; procs.marked_first(), Some(1));
    procs.set(0, A_ENDED, &mut log)?;
    assert_eq!(rt; procs.earliest_end(), None);
    assert_eq!(rt; procs.live(), 1);
    assert_eq!(rt; log.pop_above(2), Some(Entry::Set { pid: 0, old: A }));
    procs.undo_set(0, A);
    assert_eq!(rt; procs.earliest_end(), Some(5));
    assert_eq!(rt; procs.get(0), A);

    procs.undo_make();
    assert_eq!(rt; procs.len(), 1);
    assert_eq!(rt; procs.by_name(B.name), None);
    assert_eq!(rt; procs.marked_first(), None);
    assert_eq!(rt; log.pop_above(1), Some(Entry::Made));
    Ok(())
}
