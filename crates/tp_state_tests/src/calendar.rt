//! Each public call with ample memory.

use std::alloc::Global;
use tp_calendar::Calendar;
use tp_log::{Entry, Log};
use tp_terms::{NoMemory, Slot};

const EARLY: Slot = Slot {
    time: 3,
    number: 1,
    pid: 1,
};

const LATE: Slot = Slot {
    time: 5,
    number: 0,
    pid: 0,
};

const LATER: Slot = Slot {
    time: 5,
    number: 2,
    pid: 2,
};

#[test]
fn entries_come_in_order_of_time(rt: HostRuntime) -> Result<(), NoMemory> {
    let mut log = Log::new(rt.alloc());
    let mut calendar = three(rt.alloc(), &mut log)?;
    let taken = calendar.take_first(&mut log)?;
    assert_eq!(rt; taken, Some(EARLY));
    assert_eq!(rt; log.pop_above(3), Some(Entry::Took(EARLY)));
    assert_eq!(rt; calendar.first(), Some(LATE));
    if let Some(slot) = taken {
        calendar.undo_take(slot);
    }
    assert_eq!(rt; calendar.first(), Some(EARLY));

    calendar.undo_put(LATE);
    assert_eq!(rt; calendar.take_first(&mut log)?, Some(EARLY));
    assert_eq!(rt; calendar.take_first(&mut log)?, Some(LATER));
    assert_eq!(rt; calendar.take_first(&mut log)?, None);
    assert_eq!(rt; log.len(), 5);
    Ok(())
}

/// A calendar with the three entries.
fn three(alloc: Global, log: &mut Log) -> Result<Calendar, NoMemory> {
    let mut calendar = Calendar::new(alloc);
    calendar.put(LATE, log)?;
    calendar.put(EARLY, log)?;
    calendar.put(LATER, log)?;
    Ok(calendar)
}
