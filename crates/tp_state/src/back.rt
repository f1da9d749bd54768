//! The way back to marks.

ghost use Rattle.std.specs.Prelude.{◌≡◌, take, drop};
ghost use Rattle.tp_store.specs.Contents.{IsStore};
ghost use Rattle.tp_state.specs.State.{plain_of, held_of};

use crate::state::State;
use tp_control::Marks;
use tp_log::Entry;

impl State {
    ghost use Rattle.tp_state.specs.Undo.{Allows, Covers, undo, undo_rooms, undone};
    ghost use Rattle.tp_state.specs.Going.{IsSafe, Within, marks_of, parts_of, rewound, with_parts};

    /// How much there is now of each part, and the numbers of now: by them `rewind` goes back here.
    pub fn marks(&self) -> Marks
        ensures { result ≡ marks_of (held_of self.now) }
    {
        Marks {
            store: self.store.mark(),
            items: self.frames.len(),
            events: self.events.len(),
            log: self.log.len(),
            clock: self.clock,
            insertion: self.insertion,
            running: self.running,
            first: self.items,
        }
    }

    /// Takes the act of an entry back. Takes no memory.
    fn undo(&mut self, entry: Entry)
        requires { Allows entry (parts_of (plain_of self.old)) (held_of self.old).rooms }
        ensures plain { plain_of self.new
            ≡ with_parts (undo entry (parts_of (plain_of self.old))) (plain_of self.old) }
        ensures log { self.new.log ≡ self.old.log }
        ensures rooms { Covers (undo_rooms entry (held_of self.old).rooms)
            (held_of self.new).rooms }
    {
        match entry {
            Entry::Bind(number) => self.store.undo_bind(number),
            Entry::Made => self.procs.undo_make(),
            Entry::Set { pid, old } => self.procs.undo_set(pid, old),
            Entry::Put(slot) => self.calendar.undo_put(slot),
            Entry::Took(slot) => self.calendar.undo_take(slot),
            Entry::BoxMade => self.boxes.undo_add(),
            Entry::Sent(pid) => self.boxes.undo_send(pid),
            Entry::Received {
                pid,
                place,
                message,
            } => self.boxes.undo_take(pid, place, message),
        }
    }

    /// Takes the acts of all entries above so many back, the last one first. Takes no memory.
    fn undo_above(&mut self, kept: usize)
        requires { IsSafe (held_of self.old) }
        ensures plain { plain_of self.new
            ≡ with_parts (undone (drop kept self.old.log) (parts_of (plain_of self.old)))
            (plain_of self.old) }
        ensures log { self.new.log ≡ take kept self.old.log }
        ensures safe { IsSafe (held_of self.new) }
    {
        'entries: while let Some(entry) = self.log.pop_above(kept) {
            self.undo(entry);
        }
    }

    /// Goes back to marks: what was logged since is taken back, what was added since is cut off,
    /// and the numbers are those of the marks. Takes no memory.
    pub fn rewind(&mut self, marks: &Marks)
        requires within { Within marks.now (held_of self.old) }
        requires safe { IsSafe (held_of self.old) }
        requires store { IsStore (rewound (held_of self.old) marks.now).store }
        ensures plain { plain_of self.new ≡ rewound (held_of self.old) marks.now }
        ensures log { self.new.log ≡ take marks.now.log self.old.log }
        ensures safe { IsSafe (held_of self.new) }
    {
        self.undo_above(marks.log);
        self.store.back_to(marks.store);
        self.frames.cut_to(marks.items);
        self.events.cut_to(marks.events);
        self.clock = marks.clock;
        self.insertion = marks.insertion;
        self.running = marks.running;
        self.items = marks.first;
    }
}
