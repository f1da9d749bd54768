//! A history that is added to and cut.

use tp_history::Events;
use tp_terms::{Event, EventKind, NoMemory, Ref};

/// Times and events, in the order in which they come.
const EVENTS: [(i64, EventKind); 3] = [
    (0, EventKind::Start),
    (-2, EventKind::Take(Ref { at: 7 })),
    (3, EventKind::End),
];

/// The event of a row.
fn event(row: (i64, EventKind)) -> Event {
    Event {
        time: row.0,
        pid: 0,
        kind: row.1,
    }
}

#[test]
fn keeps_events_in_order(rt: HostRuntime) -> Result<(), NoMemory> {
    let mut events = Events::new(rt.alloc());
    assert!(rt; events.is_empty());
    for row in EVENTS {
        events.push(event(row))?;
    }
    for (at, row) in EVENTS.iter().enumerate() {
        assert_eq!(rt; events.get(at), Some(event(*row)), "at {at}");
    }
    for (len, left) in [(5, 3), (3, 3), (1, 1), (0, 0)] {
        events.cut_to(len);
        assert_eq!(rt; events.len(), left, "cut to {len}");
        assert_eq!(rt; events.get(left), None, "cut to {len}");
        assert_eq!(rt; events.is_empty(), left == 0, "cut to {len}");
    }
    Ok(())
}
