//! Worked histories.

use crate::{EventMeter, EventView, MailMeter, Meter, ProcMeter, TimeMeter};
use std::test::Fail;

/// An event of a kind at a time.
fn event(time: i64, kind: u8, amount: i64) -> EventView {
    EventView { time, kind, amount }
}

/// Whether a meter tells these numbers of some events, and no more.
fn tells<M: Meter>(meter: &mut M, events: &[EventView], wanted: &[u64]) -> bool {
    meter.clear();
    for event in events.iter() {
        meter.take(event);
    }
    for (at, number) in wanted.iter().enumerate() {
        if meter.number(at) != Some(*number) {
            return false;
        }
    }
    meter.number(wanted.len()) == None
}

#[test]
fn worked_rows(rt: HostRuntime) -> Result<(), Fail> {
    // `main` makes a process and ends, and the process holds for 5.
    let held = [
        event(0, 1, 0),
        event(0, 0, 0),
        event(0, 6, 0),
        event(0, 1, 0),
        event(0, 2, 5),
        event(5, 6, 0),
    ];
    assert!(rt; tells(&mut EventMeter::new(), &held, &[1, 2, 1, 0, 0, 0, 2]));
    assert!(rt; tells(&mut TimeMeter::new(), &held, &[5, 5, 5]));
    assert!(rt; tells(&mut MailMeter::new(), &held, &[0, 0, 0]));
    assert!(rt; tells(&mut ProcMeter::new(), &held, &[1, 1]));
    let sent = [event(0, 3, 0), event(0, 3, 0), event(0, 4, 0)];
    assert!(rt; tells(&mut MailMeter::new(), &sent, &[2, 1, 2]));
    assert!(rt; tells(&mut MailMeter::new(), &[], &[0, 0, 0]));
    Ok(())
}
