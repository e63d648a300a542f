//! A reset that is being sent, and how an event is kept in it.

ghost use Rattle.std.specs.Prelude.{◌≡◌, ◌^◌, ◌<◌, ◌≤◌, [], None, OnOk, vec_len, vec_capacity};
ghost use Rattle.dp_epochs.specs.Effects.{own_message};
ghost use Rattle.dp_epochs.specs.State.{place_in};
ghost use Rattle.dp_commit.specs.Sending.{start_of, is_sender, owner_after, parts_after};
ghost use Rattle.dp_commit.specs.Sending.{bytes_after, next_place};
ghost use Rattle.dp_commit.specs.Room.{SameSending};

use dp_epochs::{Effect, Event};
use dp_messages::Msg;
use dp_msg_meta::Control;
use std::alloc::{AllocError, Global};

/// A reset that is being sent.
pub struct Sending {
    /// The connection that sends it, if one does.
    pub owner: Option<u32>,
    /// The place from which on it keeps entries, if it names one.
    pub place: Option<u32>,
    /// The events of the journal that say its parts.
    pub parts: Vec<u32>,
    /// How many bytes the payloads of the parts have.
    pub part_bytes: u64,
}

// It is written out, so that it is only called where a reset is let go.
impl Drop for Sending {
    fn drop(self) {
        let Sending {
            owner: _,
            place: _,
            parts,
            part_bytes: _,
        } = self;
        drop(parts);
    }
}

/// Whether the connection is the one that sends the reset, if one does.
fn is_sender(conn: u32, owner: Option<u32>) -> bool
    ensures { result ≡ is_sender conn owner }
{
    match owner {
        Some(owner) => owner == conn,
        None => false,
    }
}

/// The place that the event names, if it begins a reset with one.
fn place_in(event: &Event) -> Option<u32>
    ensures { result ≡ place_in (own_message event.now) }
{
    match event {
        Event::Say {
            msg: Msg::Control(Control::ResetFrom { at }),
            ..
        } => Some(*at),
        _ => None,
    }
}

impl Sending {
    /// No reset.
    pub fn new(alloc: Global) -> Sending
        ensures owner { result.owner ≡ None }
        ensures place { result.place ≡ None }
        ensures parts { result.parts.items ≡ [] }
        ensures bytes { result.part_bytes ≡ 0 }
    {
        Sending {
            owner: None,
            place: None,
            parts: Vec::new(alloc),
            part_bytes: 0,
        }
    }

    /// Makes the memory ready that any one event needs.
    pub(crate) fn reserve(&mut self) -> Result<(), AllocError>
        ensures same { SameSending self.old self.new }
        ensures room { OnOk result (vec_len self.new.parts < vec_capacity self.new.parts) }
    {
        self.parts.reserve(1)
    }

    /// From where on a history, which ends at `end`, is kept by the reset. The reset names the
    /// place.
    pub(crate) fn start(&self, end: usize) -> usize
        ensures { result ≡ start_of self.now.owner self.now.place end }
    {
        match self.owner {
            Some(_) => match self.place {
                Some(at) => at as usize,
                None => end,
            },
            None => end,
        }
    }

    /// The reset has no parts, and is this connection's or no one's.
    fn restart(&mut self, owner: Option<u32>)
        ensures owner { self.new.owner ≡ owner }
        ensures place { self.new.place ≡ self.old.place }
        ensures parts { self.new.parts.items ≡ [] }
        ensures bytes { self.new.part_bytes ≡ 0 }
    {
        self.owner = owner;
        self.parts.clear();
        self.part_bytes = 0;
    }

    /// Changes the reset by the event of this number, whose payload has this size. It takes no
    /// memory.
    pub(crate) fn note(&mut self, event: &Event, effect: Effect, n: u32, size: u64)
        requires parts { vec_len self.old.parts < vec_capacity self.old.parts }
        requires within { self.old.part_bytes ≤ 2 ^ 28 }
        requires size { size ≤ 2 ^ 30 }
        ensures owner { self.new.owner ≡ owner_after effect self.old.owner }
        ensures place { self.new.place ≡ next_place event.now effect self.old.place }
        ensures parts { self.new.parts.items
            ≡ parts_after n effect self.old.owner self.old.parts.items }
        ensures bytes { self.new.part_bytes
            ≡ bytes_after size effect self.old.owner self.old.part_bytes }
    {
        match effect {
            Effect::Began { conn, .. } => {
                self.restart(Some(conn));
                self.place = place_in(event);
            }
            Effect::Added { .. } => {
                self.parts.push_reserved(n);
                self.part_bytes += size;
            }
            Effect::Left { conn, .. } => {
                if is_sender(conn, self.owner) {
                    self.restart(None);
                }
            }
            Effect::Dropped { .. } | Effect::Reopened { .. } => self.restart(None),
            _ => {}
        }
    }
}
