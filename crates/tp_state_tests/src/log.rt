//! Each public call with ample memory.

use tp_log::{Entry, Log};
use tp_terms::{AtomId, Limit, NoMemory, Proc, ProcStatus, Ref, Slot};

const SLOT: Slot = Slot {
    time: -3,
    number: 4,
    pid: 1,
};

const PROC: Proc = Proc {
    name: AtomId { at: 2 },
    end: Limit::At(5),
    started: true,
    status: ProcStatus::Parked { marked: true },
    items: None,
};

const MESSAGE: Ref = Ref { at: 9 };

const ENTRIES: [Entry; 10] = [
    Entry::Made,
    Entry::BoxMade,
    Entry::Bind(7),
    Entry::Bind(8),
    Entry::Set { pid: 1, old: PROC },
    Entry::Put(SLOT),
    Entry::Bind(18_446_744_073_709_551_615),
    Entry::Took(SLOT),
    Entry::Sent(3),
    Entry::Received {
        pid: 3,
        place: 1,
        message: MESSAGE,
    },
];

#[test]
fn the_last_entry_comes_first(rt: HostRuntime) -> Result<(), NoMemory> {
    let mut log = Log::new(rt.alloc());
    assert!(rt; log.is_empty());
    log.push(Entry::Made)?;
    log.push(Entry::BoxMade)?;
    assert_eq!(rt; log.pop_above(1), Some(Entry::BoxMade));
    assert_eq!(rt; log.pop_above(1), None);
    log.clear();
    for entry in ENTRIES {
        log.push(entry)?;
    }
    assert_eq!(rt; log.len(), 10);
    for entry in ENTRIES.iter().rev() {
        assert_eq!(rt; log.pop_above(0), Some(*entry));
    }
    assert_eq!(rt; log.pop_above(0), None);
    Ok(())
}
