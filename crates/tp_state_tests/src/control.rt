//! Each public call with ample memory.

ghost use Rattle.std.specs.Prelude.{◌≡◌};

use std::alloc::Global;
use tp_control::{Alt, Choice, Choices, Frames, Item, Marks};
use tp_terms::{ItemId, NoMemory, Ref, StoreMark};

const MARKS: Marks = Marks {
    store: StoreMark { cells: 4, vars: 2 },
    items: 3,
    events: 1,
    log: 5,
    clock: -8,
    insertion: 6,
    running: Some(1),
    first: None,
};

#[test]
fn items_and_choices(rt: HostRuntime) -> Result<(), NoMemory> {
    let mut frames = Frames::new(rt.alloc());
    assert!(rt; frames.is_empty());
    let last = frames.push(Item::Commit(4), None)?;
    assert_eq!(rt; frames.get(last), (Item::Commit(4), None));
    let retry = Item::Retry(Ref { at: 2 });
    let first = frames.push(retry, Some(last))?;
    assert_eq!(rt; frames.get(first), (retry, Some(ItemId { at: 0 })));
    assert_eq!(rt; frames.len(), 2);
    frames.cut_to(1);
    assert_eq!(rt; frames.len(), 1);

    let mut choices = three(rt.alloc())?;
    assert!(rt; !choices.is_empty());
    choices.set_last(Alt::Message(2));
    assert_eq!(rt; choices.last(), Some(choice(9, Alt::Message(2))));
    choices.cut_from(7);
    assert_eq!(rt; choices.len(), 1);
    assert_eq!(rt; choices.pop(), Some(choice(3, Alt::Second)));
    assert_eq!(rt; choices.pop(), None);
    assert_eq!(rt; choices.last(), None);
    Ok(())
}

/// A choice with this stamp.
fn choice(stamp: u64, next: Alt) -> Choice
    ensures { result.stamp ≡ stamp }
{
    Choice {
        stamp,
        marks: MARKS,
        next,
    }
}

/// Three choices.
fn three(alloc: Global) -> Result<Choices, NoMemory> {
    let mut choices = Choices::new(alloc);
    choices.push(choice(3, Alt::Second))?;
    choices.push(choice(7, Alt::Clause(1)))?;
    choices.push(choice(9, Alt::Clause(4)))?;
    Ok(choices)
}
