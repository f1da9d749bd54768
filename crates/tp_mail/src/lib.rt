//! The boxes of messages that processes send each other.
#![tactic(auto)]

ghost use Rattle.std.specs.Prelude.{◌≡◌, ℕ, ◌+◌, ◌-◌, ◌<◌, ◌≤◌, [], ◌∷◌, ◌++◌, length, map, OnOk};
ghost use Rattle.std.specs.Prelude.{OnErr, IfOk, IfSome, IfNone, slice_get};
ghost use Rattle.std.specs.List.{insert, remove};
ghost use Rattle.tp_log.specs.Front.{front};
ghost use Rattle.tp_mail.specs.Mail.{box_of, room_of, at_box, AllAtMost, Receives};

mod rings;

use std::alloc::Global;
use std::collections::VecDeque;
use std::marker::Model;
use tp_log::{Entry, Log};
use tp_terms::{NoMemory, Ref};

/// One box of messages for each process, the oldest message first. Contracts see the list of the
/// boxes, each the list of its messages, and how many messages each box has room for.
///
/// A box is a ring, so that its first and its last message come and go at once. Where a message
/// comes or goes in between, the shorter side of the ring moves by one.
#[derive(Drop)]
pub struct Boxes {
    alloc: Global,
    boxes: Vec<VecDeque<Ref>>,
}

impl Model for Boxes {
    ghost use Rattle.tp_mail.specs.Mail.{Mail, mail_of};

    ghost Value = { Mail };

    ghost view = { λ b. mail_of b.boxes.items };
}

impl Boxes {
    /// No boxes.
    pub fn new(alloc: Global) -> Boxes
        ensures { result.boxes ≡ [] }
    {
        Boxes {
            alloc,
            boxes: Vec::new(alloc),
        }
    }

    /// The message at a place of a box, counted from 0. There is none exactly where the place is at
    /// or past the box's length.
    pub fn message(&self, pid: usize, place: usize) -> Option<Ref>
        requires { pid < length self.now.boxes }
        ensures message { result ≡ slice_get (box_of self.now.boxes pid) place }
        ensures room { length (box_of self.now.boxes pid) ≤ room_of self.now.rooms pid }
    {
        self.boxes[pid].get(place).copied()
    }

    /// The number of messages in a box.
    pub fn count(&self, pid: usize) -> usize
        requires { pid < length self.now.boxes }
        ensures { result ≡ length (box_of self.now.boxes pid) }
    {
        self.boxes[pid].len()
    }

    /// Adds an empty box behind the others, and logs that.
    ///
    /// Answers `NoMemory` where memory is refused. Then boxes and log are as before.
    pub fn add_box(&mut self, log: &mut Log) -> Result<(), NoMemory>
        ensures boxes { OnOk result (self.new.boxes ≡ self.old.boxes ++ [] ∷ []) }
        ensures log { OnOk result (log.new ≡ log.old ++ Entry.BoxMade ∷ []) }
        ensures err { OnErr result ((self.new ≡ self.old) × (log.new ≡ log.old)) }
        ensures rooms { OnOk result (front self.new.rooms ≡ self.old.rooms) }

        // Removing the last box takes that back.
        ensures inverse { OnOk result (front self.new.boxes ≡ self.old.boxes) }
    {
        self.boxes.reserve(1)?;
        log.push(Entry::BoxMade)?;
        self.boxes.push_reserved(VecDeque::new(self.alloc));
        Ok(())
    }

    /// Adds a message at the end of a box, and logs that.
    ///
    /// Answers `NoMemory` where memory is refused. Then boxes and log are as before.
    pub fn send(&mut self, pid: usize, message: Ref, log: &mut Log) -> Result<(), NoMemory>
        requires { pid < length self.old.boxes }
        ensures boxes { OnOk result
            (self.new.boxes ≡ at_box pid (λ b. b ++ message ∷ []) self.old.boxes) }
        ensures log { OnOk result (log.new ≡ log.old ++ Entry.Sent pid ∷ []) }
        ensures err { OnErr result ((self.new.boxes ≡ self.old.boxes) × (log.new ≡ log.old)) }
        ensures rooms { AllAtMost self.old.rooms self.new.rooms }

        // Removing the last message takes that back.
        ensures inverse { OnOk result (at_box pid front self.new.boxes ≡ self.old.boxes) }
    {
        rings::send_in(&mut self.boxes, pid, message, log)
    }

    /// Takes the message at a place out of a box, and logs that. There is none exactly where the
    /// place is at or past the box's length, and then nothing is logged.
    ///
    /// Answers `NoMemory` where memory is refused. Then boxes and log are as before.
    pub fn take(&mut self, pid: usize, place: usize, log: &mut Log) -> Result<Option<Ref>, NoMemory>
        requires { pid < length self.old.boxes }
        ensures some { IfOk result (λ r. IfSome r (λ m. Receives pid place m self.old self.new)) }
        ensures log { IfOk result (λ r. IfSome r (λ m.
            log.new ≡ log.old ++ Entry.Received pid place m ∷ [])) }
        ensures none { IfOk result (λ r. IfNone r ((self.new ≡ self.old) × (log.new ≡ log.old))) }
        ensures past { IfOk result (λ r. IfNone r
            (length (box_of self.old.boxes pid) ≤ place)) }
        ensures err { OnErr result ((self.new.boxes ≡ self.old.boxes) × (log.new ≡ log.old)) }
        ensures rooms { self.new.rooms ≡ self.old.rooms }
    {
        if place >= self.boxes[pid].len() {
            return Ok(None);
        }
        let message = rings::take_in(&mut self.boxes, pid, place, log)?;
        Ok(Some(message))
    }

    /// Takes an `add_box` back: removes the last box, with its room. Takes no memory.
    pub fn undo_add(&mut self)
        ensures boxes { self.new.boxes ≡ front self.old.boxes }
        ensures rooms { self.new.rooms ≡ front self.old.rooms }
    {
        let _ = self.boxes.pop();
    }

    /// Takes a `send` back: removes the last message of a box. Takes no memory.
    pub fn undo_send(&mut self, pid: usize)
        requires { pid < length self.old.boxes }
        ensures boxes { self.new.boxes ≡ at_box pid front self.old.boxes }
        ensures rooms { self.new.rooms ≡ self.old.rooms }
    {
        rings::undo_send_in(&mut self.boxes, pid);
    }

    /// Takes a `take` back: puts the message in at its place. Takes no memory, since there is room.
    pub fn undo_take(&mut self, pid: usize, place: usize, message: Ref)
        requires pid { pid < length self.old.boxes }
        requires place { place ≤ length (box_of self.old.boxes pid) }
        requires room { length (box_of self.old.boxes pid) < room_of self.old.rooms pid }
        ensures boxes { self.new.boxes ≡ at_box pid (λ b. insert b place message) self.old.boxes }
        ensures rooms { AllAtMost self.old.rooms self.new.rooms }
    {
        rings::undo_take_in(&mut self.boxes, pid, place, message);
    }
}
