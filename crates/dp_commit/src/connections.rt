//! The connections of a session, and how an event is kept in them.

ghost use Rattle.std.specs.Prelude.{◌≡◌, ◌-◌, ◌<◌, ◌^◌, [], false, length, IfOk, OnOk};
ghost use Rattle.std.specs.Prelude.{replicate, vec_len, vec_capacity};
ghost use Rattle.dp_epochs.specs.Effects.{connections_at};
ghost use Rattle.dp_epochs.specs.State.{connection_in, is_name, open_in, next_open};
ghost use Rattle.dp_history.specs.Users.{mark};
ghost use Rattle.dp_commit.specs.Marks.{IsThere, marks_after, opens_after, quiet_after, closed_in};
ghost use Rattle.dp_commit.specs.Marks.{unmarked, flagged};
ghost use Rattle.dp_commit.specs.Room.{SameRoster};

use dp_epochs::{Connection, Effect, Ending, Place};
use dp_history::name_text;
use std::alloc::{AllocError, Global};

/// Who is there: the connections of a session, and what is noted beside them.
pub struct Roster {
    pub connections: Vec<Connection>,
    /// For each connection, whether it is flagged as quiet.
    pub quiet: Vec<bool>,
    /// For each id, whether a user who is present has it.
    pub present: [bool; 256],
    /// For each id, the event of the journal by which its user joined last.
    pub opens: [u32; 256],
}

// It is written out, so that it is only called where a roster is let go.
impl Drop for Roster {
    fn drop(self) {
        let Roster {
            connections,
            quiet,
            present: _,
            opens: _,
        } = self;
        drop(connections);
        drop(quiet);
    }
}

/// The connection of a number, if it was given out.
pub fn connection(connections: &[Connection], conn: u32) -> Option<Connection>
    ensures { result ≡ connection_in connections.now conn }
{
    if conn == 0 {
        return None;
    }
    connections.get(conn as usize - 1).copied()
}

/// The connection of a number, if it was given out and is open.
pub fn open_connection(connections: &[Connection], conn: u32) -> Option<Connection>
    ensures { result ≡ open_in connections.now conn }
{
    let found = connection(connections, conn)?;
    match found.ending {
        Ending::Running => Some(found),
        Ending::Left(_) => None,
        Ending::Shut => None,
    }
}

/// The least number above this one of a connection that is open.
pub fn next_open(connections: &[Connection], after: u32) -> Option<u32>
    requires { length connections.now < 2 ^ 32 }
    ensures { result ≡ next_open connections.now after }
{
    for index in after..connections.len() as u32 {
        if connections[index as usize].is_open() {
            return Some(index + 1);
        }
    }
    None
}

/// Whether the connection of the number, which was given out, is flagged.
pub(crate) fn is_flagged(quiet: &[bool], conn: u32) -> bool
    requires { 0 < conn }
    ensures { result ≡ mark quiet.now (conn - 1) }
{
    quiet.get(conn as usize - 1).copied().unwrap_or(false)
}

impl Roster {
    /// No one.
    pub fn new(alloc: Global) -> Roster
        ensures connections { result.connections.items ≡ [] }
        ensures quiet { result.quiet.items ≡ [] }
        ensures present { result.present ≡ replicate 256 false }
        ensures opens { result.opens ≡ replicate 256 0 }
    {
        Roster {
            connections: Vec::new(alloc),
            quiet: Vec::new(alloc),
            present: [false; 256],
            opens: [0; 256],
        }
    }

    /// Makes the memory ready that any one event needs.
    pub(crate) fn reserve(&mut self) -> Result<(), AllocError>
        ensures same { SameRoster self.old self.new }
        ensures connections_room { OnOk result (vec_len self.new.connections
            < vec_capacity self.new.connections) }
        ensures quiet_room { OnOk result (vec_len self.new.quiet < vec_capacity self.new.quiet) }
    {
        self.connections.reserve(1)?;
        self.quiet.reserve(1)
    }

    /// By the event of this number, adds the connection of the user who joins. Or it changes that
    /// of the one who takes up the epoch or leaves. It takes no memory.
    pub(crate) fn note(&mut self, effect: Effect, here: Place, event: u32)
        requires connections { vec_len self.old.connections < vec_capacity self.old.connections }
        requires quiet { vec_len self.old.quiet < vec_capacity self.old.quiet }
        requires there { IsThere self.old.connections.items effect }
        ensures connections { self.new.connections.items
            ≡ connections_at here self.old.connections.items effect }
        ensures quiet { self.new.quiet.items ≡ quiet_after effect self.old.quiet.items }
        ensures present { self.new.present ≡ marks_after effect self.old.present }
        ensures opens { self.new.opens ≡ opens_after event effect self.old.opens }
    {
        match effect {
            Effect::TakesUp { conn, connection } => {
                self.connections[conn as usize - 1] = Connection {
                    acknowledged: here.epoch,
                    ..connection
                };
            }
            Effect::Joined { user, .. } => {
                self.connections.push_reserved(Connection {
                    user,
                    acknowledged: here.epoch,
                    joined: here,
                    ending: Ending::Running,
                });
                self.quiet.push_reserved(false);
                self.present[user as usize] = true;
                self.opens[user as usize] = event;
            }
            Effect::Left {
                conn,
                connection,
                ..
            } => {
                self.connections[conn as usize - 1] = Connection {
                    ending: Ending::Left(here),
                    ..connection
                };
                self.present[connection.user as usize] = false;
            }
            _ => {}
        }
    }

    /// Closes the connection of a number, if it is open, without a Leave. It takes no memory.
    pub fn shut(&mut self, conn: u32)
        ensures connections { self.new.connections.items
            ≡ closed_in conn (open_in self.old.connections.items conn)
            self.old.connections.items }
        ensures quiet { self.new.quiet ≡ self.old.quiet }
        ensures present { self.new.present
            ≡ unmarked (open_in self.old.connections.items conn) self.old.present }
        ensures opens { self.new.opens ≡ self.old.opens }
    {
        if let Some(connection) = open_connection(&self.connections, conn) {
            self.connections[conn as usize - 1] = Connection {
                ending: Ending::Shut,
                ..connection
            };
            self.present[connection.user as usize] = false;
        }
    }

    /// Flags the connection of a number as quiet, if it was given out. It takes no memory.
    pub fn flag(&mut self, conn: u32)
        ensures quiet { self.new.quiet.items ≡ flagged self.old.quiet.items conn }
        ensures others { self.new ≡ record self.old { quiet = self.new.quiet } }
    {
        if conn > 0 && conn as usize <= self.quiet.len() {
            self.quiet[conn as usize - 1] = true;
        }
    }
}

/// Whether these bytes are a name.
pub fn is_named(alloc: Global, name: &[u8]) -> Result<bool, AllocError>
    ensures { IfOk result (λ named. named ≡ is_name name.now) }
{
    Ok(name_text(alloc, name)?.is_some())
}
