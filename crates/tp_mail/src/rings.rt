//! Boxes as rings of messages.

ghost use Rattle.std.specs.Prelude.{◌≡◌, ℕ, ◌+◌, ◌-◌, ◌<◌, ◌≤◌, List, [], ◌∷◌, ◌++◌, length, map};
ghost use Rattle.std.specs.Prelude.{OnOk, OnErr, IfOk, Some, slice_get};
ghost use Rattle.std.specs.List.{insert, remove};
ghost use Rattle.std.specs.VecDeque.{deque_len, deque_capacity};
ghost use Rattle.tp_log.specs.Front.{front};
ghost use Rattle.tp_mail.specs.Mail.{box_of, room_of, at_box, AllAtMost, Receives, boxes_of};
ghost use Rattle.tp_mail.specs.Mail.{rooms_of, mail_of};

use std::collections::VecDeque;
use tp_log::{Entry, Log};
use tp_terms::{NoMemory, Ref};

/// Adds a message to one box.
fn add_message(
    messages: &mut VecDeque<Ref>,
    pid: usize,
    message: Ref,
    log: &mut Log,
) -> Result<(), NoMemory>
    ensures messages { OnOk result (messages.new.items ≡ messages.old.items ++ message ∷ []) }
    ensures log { OnOk result (log.new ≡ log.old ++ Entry.Sent pid ∷ []) }
    ensures err { OnErr result ((messages.new.items ≡ messages.old.items) × (log.new ≡ log.old)) }
    ensures room { deque_capacity messages.old ≤ deque_capacity messages.new }
{
    messages.reserve(1)?;
    log.push(Entry::Sent(pid))?;
    let _ = messages.push_back(message);
    Ok(())
}

/// Takes a message out of one box.
fn take_message(
    messages: &mut VecDeque<Ref>,
    pid: usize,
    place: usize,
    log: &mut Log,
) -> Result<Ref, NoMemory>
    requires { place < length messages.old.items }
    ensures message { IfOk result (λ m. slice_get messages.old.items place ≡ Some m) }
    ensures messages { OnOk result (messages.new.items ≡ remove messages.old.items place) }
    ensures log { IfOk result (λ m. log.new ≡ log.old ++ Entry.Received pid place m ∷ []) }
    ensures shorter { OnOk result (length messages.new.items < deque_capacity messages.new) }
    ensures err { OnErr result ((messages.new.items ≡ messages.old.items) × (log.new ≡ log.old)) }
    ensures room { deque_capacity messages.new ≡ deque_capacity messages.old }
{
    let message = messages[place];
    log.push(Entry::Received {
        pid,
        place,
        message,
    })?;
    let _ = messages.remove(place);
    Ok(message)
}

/// Puts a message in where there is room, which can't fail.
fn put_message(messages: &mut VecDeque<Ref>, place: usize, message: Ref)
    requires place { place ≤ length messages.old.items }
    requires room { length messages.old.items < deque_capacity messages.old }
    ensures messages { messages.new.items ≡ insert messages.old.items place message }
    ensures room { deque_capacity messages.old ≤ deque_capacity messages.new }
{
    let _ = messages.insert(place, message);
}

/// Adds a message to a box of many.
pub(crate) fn send_in(
    boxes: &mut Vec<VecDeque<Ref>>,
    pid: usize,
    message: Ref,
    log: &mut Log,
) -> Result<(), NoMemory>
    requires { pid < length boxes.old.items }
    ensures boxes { OnOk result (boxes_of boxes.new.items
        ≡ at_box pid (λ b. b ++ message ∷ []) (boxes_of boxes.old.items)) }
    ensures log { OnOk result (log.new ≡ log.old ++ Entry.Sent pid ∷ []) }
    ensures err { OnErr result
        ((boxes_of boxes.new.items ≡ boxes_of boxes.old.items) × (log.new ≡ log.old)) }
    ensures rooms { AllAtMost (rooms_of boxes.old.items) (rooms_of boxes.new.items) }
    ensures inverse { OnOk result
        (at_box pid front (boxes_of boxes.new.items) ≡ boxes_of boxes.old.items) }
{
    add_message(&mut boxes[pid], pid, message, log)
}

/// Takes a message out of a box of many.
pub(crate) fn take_in(
    boxes: &mut Vec<VecDeque<Ref>>,
    pid: usize,
    place: usize,
    log: &mut Log,
) -> Result<Ref, NoMemory>
    requires pid { pid < length boxes.old.items }
    requires place { place < length (box_of (boxes_of boxes.old.items) pid) }
    ensures ok { IfOk result (λ m.
        Receives pid place m (mail_of boxes.old.items) (mail_of boxes.new.items)) }
    ensures log { IfOk result (λ m. log.new ≡ log.old ++ Entry.Received pid place m ∷ []) }
    ensures err { OnErr result
        ((boxes_of boxes.new.items ≡ boxes_of boxes.old.items) × (log.new ≡ log.old)) }
    ensures rooms { rooms_of boxes.new.items ≡ rooms_of boxes.old.items }
{
    take_message(&mut boxes[pid], pid, place, log)
}

/// Removes the last message of a box of many.
pub(crate) fn undo_send_in(boxes: &mut Vec<VecDeque<Ref>>, pid: usize)
    requires { pid < length boxes.old.items }
    ensures boxes { boxes_of boxes.new.items ≡ at_box pid front (boxes_of boxes.old.items) }
    ensures rooms { rooms_of boxes.new.items ≡ rooms_of boxes.old.items }
{
    let _ = boxes[pid].pop_back();
}

/// Puts a message in again in a box of many.
pub(crate) fn undo_take_in(boxes: &mut Vec<VecDeque<Ref>>, pid: usize, place: usize, message: Ref)
    requires pid { pid < length boxes.old.items }
    requires place { place ≤ length (box_of (boxes_of boxes.old.items) pid) }
    requires room { length (box_of (boxes_of boxes.old.items) pid)
        < room_of (rooms_of boxes.old.items) pid }
    ensures boxes { boxes_of boxes.new.items
        ≡ at_box pid (λ b. insert b place message) (boxes_of boxes.old.items) }
    ensures rooms { AllAtMost (rooms_of boxes.old.items) (rooms_of boxes.new.items) }
{
    put_message(&mut boxes[pid], place, message);
}
