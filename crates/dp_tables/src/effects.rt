//! What an event does to a session, and what is to be kept of it, with the memory that it needs.

ghost use Rattle.std.specs.Prelude.{◌≡◌, ℕ, List, Bool, false, IfOk, MatchOption, length};
ghost use Rattle.dp_messages.specs.Messages.{payload_of};
ghost use Rattle.dp_epochs.specs.State.{is_name, decided, heard, has_acknowledged};
ghost use Rattle.dp_epochs.specs.Effects.{IsEffect};
ghost use Rattle.dp_epochs.specs.Rows.{has_room, row_of};
ghost use Rattle.dp_commit.specs.Placed.{IsSupply};
ghost use Rattle.dp_tables.specs.SessionLog.{state_in};
ghost use Rattle.dp_tables.specs.Ready.{IsReady};

use crate::ready::Ready;
use crate::tables::Tables;
use dp_acl::operators_stay;
use dp_commit::{Made, Supply, is_named, make_entries, with_ahead};
use dp_epochs::{Connection, Decision, Effect, Event, Reply, decisions_have_effects, make_row};
use dp_history::{first_operator, free_id, next_operator};
use dp_keeper::{Row, RowBytes};
use dp_messages::Msg;
use dp_msg_meta::Control;
use std::alloc::AllocError;

impl Tables {
    /// Whether the connection has taken up the live epoch.
    fn has_acknowledged(&self, connection: &Connection) -> bool
        ensures { result ≡ has_acknowledged (state_in self.now) connection.now }
    {
        connection.acknowledged == self.here().epoch
    }

    /// What becomes of a message of the open connection of this number, whose payload has this
    /// size. It takes no memory.
    fn decide(&self, conn: u32, connection: &Connection, msg: &Msg, size: u64) -> Decision
        requires { size ≡ length (payload_of msg.now) }
        ensures { result ≡ decided (state_in self.now) conn connection.now msg.now }
    {
        match msg {
            Msg::Control(Control::Ping { .. }) => Decision::Ignore,
            Msg::Control(Control::Disconnect { .. }) => Decision::Ignore,
            Msg::Control(Control::Ack { epoch }) => {
                if *epoch == self.here().epoch && !self.has_acknowledged(connection) {
                    Decision::Acknowledge
                } else {
                    Decision::Ignore
                }
            }
            _ => {
                if self.has_acknowledged(connection) {
                    self.hear(conn, connection, msg, size)
                } else {
                    Decision::Ignore
                }
            }
        }
    }

    /// What becomes of a message of a connection that has taken up the live epoch. It takes no
    /// memory.
    fn hear(&self, conn: u32, connection: &Connection, msg: &Msg, size: u64) -> Decision
        requires { size ≡ length (payload_of msg.now) }
        ensures { result ≡ heard (state_in self.now) conn connection.now msg.now }
    {
        match msg {
            Msg::Control(Control::ResetBegin) => self.hear_begin(conn, connection),
            Msg::Control(Control::ResetEnd) => self.hear_end(conn, connection),
            Msg::Control(Control::ResetFrom { at }) => self.hear_from(conn, connection, *at),
            Msg::Part(command) => self.hear_part(conn, connection, command, size),
            _ => {
                if self.permits(connection.user, msg) {
                    Decision::Place
                } else {
                    Decision::Filter
                }
            }
        }
    }

    /// What an Open does, by whether it has a name.
    fn open_effect(&self, named: bool) -> Effect
        ensures { (name : List ℕ) (registered : Bool) → named ≡ is_name name
            → IsEffect (state_in self.now) (Event.Open name registered) result }
    {
        if !named {
            return Effect::Nothing(Reply::NameRefused);
        }
        match free_id(&self.roster.present) {
            Some(user) => Effect::Joined {
                user,
                next: first_operator(&self.roster.present, user),
            },
            None => Effect::Nothing(Reply::Full),
        }
    }

    /// What a Say does, of which the message's payload has this size.
    fn say_effect(&self, conn: u32, msg: &Msg, size: u64) -> Effect
        requires { size ≡ length (payload_of msg.now) }
        ensures { IsEffect (state_in self.now) (Event.Say conn msg.now) result }
    {
        decisions_have_effects();
        match self.open_connection(conn) {
            Some(connection) => self
                .decide(conn, &connection, msg, size)
                .effect(conn, connection),
            None => Effect::Nothing(Reply::Ignored),
        }
    }

    /// What a Close does.
    fn close_effect(&self, conn: u32) -> Effect
        ensures { IsEffect (state_in self.now) (Event.Close conn) result }
    {
        operators_stay();
        match self.open_connection(conn) {
            Some(connection) => Effect::Left {
                conn,
                connection,
                next: next_operator(&self.live.rights, &self.roster.present, connection.user),
            },
            None => Effect::Nothing(Reply::Ignored),
        }
    }

    /// What the event, whose row has this length, does to the session.
    fn effect(&self, event: &Event, row: usize) -> Result<Effect, AllocError>
        requires { row ≡ length (row_of event.now) }
        ensures { IfOk result (IsEffect (state_in self.now) event.now) }
    {
        Ok(match event {
            Event::Open { name, .. } => {
                let named = is_named(self.allocator(), name.as_slice())?;
                self.open_effect(named)
            }
            Event::Say { conn, msg } => {
                self.say_effect(*conn, msg, row.saturating_sub(6) as u64)
            }
            Event::Close { conn } => self.close_effect(*conn),
        })
    }

    /// What the event, whose row has this length, does to the session, and what it places beside
    /// what it says.
    fn supplied(&self, event: &Event, row: usize) -> Result<(Effect, Supply), AllocError>
        requires { row ≡ length (row_of event.now) }
        ensures does { IfOk result (λ made. IsEffect (state_in self.now) event.now made.0) }
        ensures places { IfOk result (λ made. IsSupply self.now.journal (state_in self.now)
            event.now made.0 made.1) }
    {
        let effect = self.effect(event, row)?;
        match effect {
            Effect::Reopened { .. } => Ok((effect, Supply::Opens(self.open_epoch()?))),
            _ => Ok((effect, make_entries(self.allocator(), event, effect)?)),
        }
    }

    /// The event, whose row has this length, with what it does and what it places beside what it
    /// says.
    #[inline(always)]
    pub(crate) fn made(&self, event: Event, row: usize) -> Result<Made, AllocError>
        requires { row ≡ length (row_of event) }
        ensures event { IfOk result (λ made. made.event ≡ event) }
        ensures does { IfOk result (λ made. IsEffect (state_in self.now) event made.effect) }
        ensures places { IfOk result (λ made. IsSupply self.now.journal (state_in self.now)
            event made.effect made.supply) }
    {
        let ahead = self.supplied(&event, row);
        with_ahead(event, ahead)
    }

    /// The event as it is ready to be kept; `None` if there is no room for it.
    pub fn prepare(&self, event: &Event) -> Result<Option<Ready>, AllocError>
        ensures { IfOk result (λ found. MatchOption found
            (has_room self.now.journal event.now ≡ false) (IsReady self.now event.now)) }
    {
        let bytes = make_row(self.allocator(), event)?;
        if !self.has_room(bytes.len()) {
            return Ok(None);
        }
        let made = self.made(event.copy()?, bytes.len())?;
        Ok(Some(Ready {
            made,
            row: Row {
                n: self.events(),
                bytes: RowBytes::from_vec(bytes),
            },
        }))
    }
}
