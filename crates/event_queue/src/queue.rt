//! The queue of events between the lanes, which keeps those that main has heard too. It is used by one lane at a
//! time; the lock is elsewhere.

ghost use Rattle.std.specs.Prelude.{◌≡◌, ◌+◌, ◌-◌, ◌<◌, ◌≤◌, [], ◌∷◌, ◌++◌, length, OnOk, OnErr, vec_len, vec_capacity};
ghost use Rattle.event_queue.specs.Queues.{IsQueue, unheard, with_all_heard};

use anim_names::AnimEvent;
use std::alloc::{AllocError, Global};
use std::marker::Model;

/// All events that the compositor has sent, and how many of them main has heard.
///
/// There is one for a run, on the board between the lanes. It does not know marks or models. Contracts see a `Queue`.
#[derive(Drop)]
pub struct EventQueue {
    events: Vec<AnimEvent>,
    heard: usize,
}

impl Model for EventQueue {
    ghost use Rattle.std.specs.Prelude.{◌-◌, ◌≤◌, length, vec_len, vec_capacity};
    ghost use Rattle.event_queue.specs.Queues.{Queue};

    ghost Value = { Queue };

    ghost view = { λ q. record {
      events = q.events.items;
      heard = q.heard;
      room = vec_capacity q.events - vec_len q.events;
    } };

    ghost invariant = { λ q. q.heard ≤ length q.events.items };
}

impl EventQueue {
    /// A queue to which nothing was sent. It has no room yet.
    pub fn new(alloc: Global) -> EventQueue
        ensures events { result.events ≡ [] }
        ensures heard { result.heard ≡ 0 }
    {
        EventQueue {
            events: Vec::new(alloc),
            heard: 0,
        }
    }

    /// Makes room for this many further events. Where there is no memory, all stays as it was.
    pub fn reserve(&mut self, events: u32) -> Result<(), AllocError>
        ensures room { OnOk result (events ≤ self.new.room) }
        ensures never_less { self.old.room ≤ self.new.room }
        ensures same { self.new ≡ record self.old { room = self.new.room } }
        ensures err { OnErr result (self.new ≡ self.old) }
    {
        self.events.reserve(events as usize)
    }

    /// How many events can be sent before there must be more room.
    pub fn spare(&self) -> usize
        ensures { result ≡ self.now.room }
    {
        self.events.capacity() - self.events.len()
    }

    /// Puts an event behind all that were sent.
    pub fn send(&mut self, event: AnimEvent)
        requires { 0 < self.old.room }
        ensures events { self.new.events ≡ self.old.events ++ event ∷ [] }
        ensures heard { self.new.heard ≡ self.old.heard }
        ensures room { self.new.room + 1 ≡ self.old.room }
    {
        self.events.push_reserved(event);
    }

    /// Puts events behind all that were sent, in their order.
    pub fn send_all(&mut self, events: &[AnimEvent])
        requires { length events.now ≤ self.old.room }
        ensures events { self.new.events ≡ self.old.events ++ events.now }
        ensures heard { self.new.heard ≡ self.old.heard }
        ensures room { self.new.room + length events.now ≡ self.old.room }
    {
        append_reserved(&mut self.events, events);
    }

    /// How many events were sent and are not heard.
    pub fn unheard(&self) -> usize
        ensures count { result ≡ length (unheard self.now) }

        // Of every queue: no more is heard than was sent.
        ensures queue { IsQueue self.now }
    {
        self.events.len() - self.heard
    }

    /// Appends what is not heard to `into`, in the order of sending, and says how much that was. It stays unheard.
    pub fn copy_new(&self, into: &mut Vec<AnimEvent>) -> usize
        requires { vec_len into.old + length (unheard self.now) ≤ vec_capacity into.old }
        ensures given { into.new.items ≡ into.old.items ++ unheard self.now }
        ensures count { result ≡ length (unheard self.now) }
        ensures capacity { vec_capacity into.new ≡ vec_capacity into.old }
    {
        append_reserved(into, &self.events[self.heard..]);
        self.unheard()
    }

    /// Appends what is not heard to `into`, in the order of sending, and says how much that was. Then all is heard.
    pub fn take_new(&mut self, into: &mut Vec<AnimEvent>) -> usize
        requires { vec_len into.old + length (unheard self.old) ≤ vec_capacity into.old }
        ensures given { into.new.items ≡ into.old.items ++ unheard self.old }
        ensures count { result ≡ length (unheard self.old) }
        ensures left { self.new ≡ with_all_heard self.old }
        ensures capacity { vec_capacity into.new ≡ vec_capacity into.old }
    {
        let count = self.copy_new(into);
        self.heard = self.events.len();
        count
    }

    /// All events that were ever sent, in order.
    pub fn events(&self) -> &[AnimEvent]
        ensures { result.now ≡ self.now.events }
    {
        &self.events
    }
}

// Appends events for which there is room.
fn append_reserved(into: &mut Vec<AnimEvent>, events: &[AnimEvent])
    requires { vec_len into.old + length events.now ≤ vec_capacity into.old }
    ensures items { into.new.items ≡ into.old.items ++ events.now }
    ensures capacity { vec_capacity into.new ≡ vec_capacity into.old }
{
    for event in events {
        into.push_reserved(*event);
    }
}
