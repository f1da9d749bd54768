//! Each public call with ample memory.

ghost use Rattle.std.specs.Prelude.{◌≡◌, [], ◌∷◌, IfOk};

use std::alloc::Global;
use tp_log::{Entry, Log};
use tp_mail::Boxes;
use tp_terms::{NoMemory, Ref};

const X: Ref = Ref { at: 10 };

const Y: Ref = Ref { at: 20 };

const Z: Ref = Ref { at: 30 };

#[test]
fn messages_come_back_to_their_places(rt: HostRuntime) -> Result<(), NoMemory> {
    let mut log = Log::new(rt.alloc());
    let mut boxes = three(rt.alloc(), &mut log)?;
    assert_eq!(rt; log.len(), 4);
    let taken = boxes.take(0, 1, &mut log)?;
    assert_eq!(rt; taken, Some(Y));
    let received = Entry::Received {
        pid: 0,
        place: 1,
        message: Y,
    };
    assert_eq!(rt; log.pop_above(4), Some(received));
    assert_eq!(rt; boxes.message(0, 1), Some(Z));
    if let Some(message) = taken {
        boxes.undo_take(0, 1, message);
    }
    assert_eq!(rt; boxes.message(0, 1), Some(Y));
    assert_eq!(rt; boxes.message(0, 3), None);

    boxes.undo_send(0);
    assert_eq!(rt; boxes.message(0, 2), None);
    assert_eq!(rt; boxes.take(0, 2, &mut log)?, None);
    assert_eq!(rt; log.pop_above(3), Some(Entry::Sent(0)));
    boxes.undo_add();
    boxes.add_box(&mut log)?;
    assert_eq!(rt; boxes.message(0, 0), None);
    Ok(())
}

/// One box with three messages.
fn three(alloc: Global, log: &mut Log) -> Result<Boxes, NoMemory>
    ensures { IfOk result (λ b. b.boxes ≡ (X ∷ Y ∷ Z ∷ []) ∷ []) }
{
    let mut boxes = Boxes::new(alloc);
    boxes.add_box(log)?;
    boxes.send(0, X, log)?;
    boxes.send(0, Y, log)?;
    boxes.send(0, Z, log)?;
    Ok(boxes)
}
