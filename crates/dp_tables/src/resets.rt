//! Resets: who may send one, what becomes of its messages, and how it opens the next epoch.

ghost use Rattle.std.specs.Prelude.{◌≡◌, ◌+◌, Some, false, is_some, IfOk, length, nat_le};
ghost use Rattle.std.specs.Option.{option_map_or};
ghost use Rattle.dp_acl.specs.Opening.{opening};
ghost use Rattle.dp_messages.specs.declared.message.Msg.TheVariants as msg;
ghost use Rattle.dp_epochs.specs.State.{
  epoch_of,
  fits_reset,
  heard,
  is_held_by_other,
  kept_by,
  may_begin,
  part_bytes,
  present_users,
  reset_of,
  sent_commands,
  Stream,
};
ghost use Rattle.dp_msg_draw.specs.declared.draw.Draw.{Draw as Drawn};
ghost use Rattle.dp_msg_meta.specs.declared.message.Control.TheVariants.{ResetBegin, ResetEnd};
ghost use Rattle.dp_msg_meta.specs.declared.message.Control.TheVariants.{ResetFrom};
ghost use Rattle.dp_tables.specs.SessionLog.{state_in};
ghost use Rattle.dp_history.specs.Openings.{Holds};

use crate::tables::Tables;
use dp_epochs::{Connection, Decision, epochs_are_few, histories_are_short};
use dp_history::Opening;
use dp_msg_draw::Draw;
use std::alloc::AllocError;

/// The most commands of a reset.
const PART_LIMIT: usize = 262_144;

/// The most bytes that the payloads of its parts have.
const BYTE_LIMIT: u64 = 1 << 28;

impl Tables {
    /// Whether a connection other than this one, whose user is present and operator, sends a reset.
    fn is_held_by_other(&self, conn: u32) -> bool
        ensures { result ≡ option_map_or (is_held_by_other (state_in self.now) conn)
            (state_in self.now).stream false }
    {
        match self.sending.owner {
            Some(owner) if owner != conn => match self.open_connection(owner) {
                Some(other) => self.live.rights.is_operator(other.user),
                None => false,
            },
            _ => false,
        }
    }

    /// Whether the connection sends a reset, and its user is operator.
    fn sends_reset(&self, conn: u32, connection: &Connection) -> bool
        ensures { result ≡ is_some (reset_of (state_in self.now) conn connection.now) }
    {
        self.live.rights.is_operator(connection.user) && self.sending.owner == Some(conn)
    }

    /// Whether the reset may have one more part, whose payload has this size.
    fn fits_reset(&self, size: u64) -> bool
        ensures { (stream : Stream) (command : Drawn) → (state_in self.now).stream ≡ Some stream
            → size ≡ part_bytes command → result ≡ fits_reset stream.commands command }
    {
        self.sending.parts.len() < PART_LIMIT && size <= BYTE_LIMIT - self.sending.part_bytes
    }

    /// Whether the connection may begin a reset: its user is operator, and no other present
    /// operator sends one.
    fn may_begin(&self, conn: u32, connection: &Connection) -> bool
        ensures { result ≡ may_begin (state_in self.now) conn connection.now }
    {
        self.live.rights.is_operator(connection.user) && !self.is_held_by_other(conn)
    }

    /// What becomes of a message that begins a reset which keeps no entry.
    pub(crate) fn hear_begin(&self, conn: u32, connection: &Connection) -> Decision
        ensures { result ≡ heard (state_in self.now) conn connection.now
            (msg.Control ResetBegin) }
    {
        if self.may_begin(conn, connection) {
            Decision::BeginReset
        } else {
            Decision::Filter
        }
    }

    /// Whether the place is not past the live history.
    fn is_within_live(&self, at: u32) -> bool
        ensures { result ≡ nat_le at (length (state_in self.now).live) }
    {
        at as usize <= self.live.history.len()
    }

    /// What becomes of a message that begins a reset which keeps entries from this place on.
    pub(crate) fn hear_from(&self, conn: u32, connection: &Connection, at: u32) -> Decision
        ensures { result ≡ heard (state_in self.now) conn connection.now
            (msg.Control (ResetFrom at)) }
    {
        if self.may_begin(conn, connection) && self.is_within_live(at) {
            Decision::BeginReset
        } else {
            Decision::Filter
        }
    }

    /// What becomes of a message that ends a reset.
    pub(crate) fn hear_end(&self, conn: u32, connection: &Connection) -> Decision
        ensures { result ≡ heard (state_in self.now) conn connection.now (msg.Control ResetEnd) }
    {
        if self.sends_reset(conn, connection) {
            Decision::OpenEpoch
        } else {
            Decision::Filter
        }
    }

    /// What becomes of a part of a reset, whose payload has this size.
    pub(crate) fn hear_part(
        &self,
        conn: u32,
        connection: &Connection,
        command: &Draw,
        size: u64,
    ) -> Decision
        requires { size ≡ part_bytes command.now }
        ensures { result ≡ heard (state_in self.now) conn connection.now (msg.Part command.now) }
    {
        if !self.sends_reset(conn, connection) {
            return Decision::Filter;
        }
        if self.fits_reset(size) {
            Decision::AddPart
        } else {
            Decision::DropReset
        }
    }

    /// How the next epoch opens, with the commands of the reset that is being sent and what it
    /// keeps.
    pub(crate) fn open_epoch(&self) -> Result<Opening, AllocError>
        ensures { IfOk result (λ o. Holds self.now.journal o
            (opening (epoch_of (state_in self.now) + 1) (state_in self.now).live
            (present_users (state_in self.now)) (sent_commands (state_in self.now).stream)
            (kept_by (state_in self.now).stream (state_in self.now).live))) }
    {
        epochs_are_few();
        histories_are_short();
        self.live
            .open_next(&self.journal, &self.roster, &self.sending)
    }
}
