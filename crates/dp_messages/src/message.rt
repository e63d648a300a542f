//! A message, and the entry that it makes with its sender.
//!
//! The rule: docs/protocol.md, "Messages".

ghost use Rattle.std.specs.Prelude.{◌≡◌, IfOk};
ghost use Rattle.std.specs.Option.{option_copied};
ghost use Rattle.dp_messages.specs.Messages.{kind_of};
ghost use Rattle.dp_messages.specs.Properties.{is_disconnect, is_reset_mark, marked, carried_by};
ghost use Rattle.dp_messages.specs.Properties.{is_filtered, command_of};

use crate::decoder::{PART_KIND, POINT_KIND, UNDO_KIND};
use dp_frame::Octets;
use dp_msg_draw::{Draw, kind_of_draw};
use dp_msg_meta::{Control, Meta, kind_of_control, kind_of_meta};
use std::alloc::AllocError;

/// A message of the session.
///
/// Not every value has a spelling (`HasSpelling`): what `decode` gives has one.
#[derive(Debug, Drop)]
pub enum Msg {
    /// A message of the link between a client and its server.
    Control(Control),
    /// A message about users, rights and the epoch.
    Meta(Meta),
    /// One command of the canvas that a reset uploads.
    Part(Draw),
    /// Opens a new group of the sender's strokes.
    Point,
    /// Takes back a group of the target's strokes, or with `redo` brings one back. Target 0 is the
    /// sender.
    Undo { target: u8, redo: bool },
    /// A drawing command.
    Draw(Draw),
    /// A message of a kind that isn't listed, from 64 on, with any payload. It has no effect.
    Opaque { kind: u8, body: Octets },
}

/// A message with the user who sent it, by context id.
#[derive(Debug, Drop)]
pub struct Entry {
    pub user: u8,
    pub msg: Msg,
}

impl Msg {
    /// The number of the message's kind, the type byte of its frame.
    pub fn kind(&self) -> u8
        ensures { result ≡ kind_of self.now }
    {
        match self {
            Msg::Control(control) => kind_of_control(control),
            Msg::Meta(meta) => kind_of_meta(meta),
            Msg::Part(_) => PART_KIND,
            Msg::Point => POINT_KIND,
            Msg::Undo { .. } => UNDO_KIND,
            Msg::Draw(command) => kind_of_draw(command),
            Msg::Opaque { kind, .. } => *kind,
        }
    }

    /// Whether the message ends what a connection says.
    pub fn is_disconnect(&self) -> bool
        ensures { result ≡ is_disconnect self.now }
    {
        matches!(self, Msg::Control(Control::Disconnect { .. }))
    }

    /// Whether the message is the mark that heads an epoch.
    pub fn is_reset_mark(&self) -> bool
        ensures { result ≡ is_reset_mark self.now }
    {
        matches!(self, Msg::Meta(Meta::ResetMark { .. }))
    }

    /// The epoch that a mark opens.
    pub fn marked(&self) -> Option<u32>
        ensures { result ≡ marked self.now }
    {
        match self {
            Msg::Meta(Meta::ResetMark { epoch, .. }) => Some(*epoch),
            _ => None,
        }
    }

    /// How many entries after its mark an epoch carried; 0 for any other message.
    pub fn carried_by(&self) -> u32
        ensures { result ≡ carried_by self.now }
    {
        match self {
            Msg::Meta(Meta::ResetMark { carried, .. }) => *carried,
            _ => 0,
        }
    }

    /// Whether the message stands in place of one that was not permitted.
    pub fn is_filtered(&self) -> bool
        ensures { result ≡ is_filtered self.now }
    {
        matches!(self, Msg::Meta(Meta::Filtered { .. }))
    }

    /// The drawing command, if the message is one. A part of a reset is none.
    pub fn command(&self) -> Option<&Draw>
        ensures { option_copied result ≡ command_of self.now }
    {
        match self {
            Msg::Draw(command) => Some(command),
            _ => None,
        }
    }

    /// An equal message.
    pub fn copy(&self) -> Result<Msg, AllocError>
        ensures { IfOk result (λ m. m ≡ self.now) }
    {
        Ok(match self {
            Msg::Control(control) => Msg::Control(control.copy()?),
            Msg::Meta(meta) => Msg::Meta(meta.copy()?),
            Msg::Part(command) => Msg::Part(command.copy()?),
            Msg::Point => Msg::Point,
            Msg::Undo { target, redo } => Msg::Undo {
                target: *target,
                redo: *redo,
            },
            Msg::Draw(command) => Msg::Draw(command.copy()?),
            Msg::Opaque { kind, body } => Msg::Opaque {
                kind: *kind,
                body: body.copy()?,
            },
        })
    }
}

impl Entry {
    /// An equal entry.
    pub fn copy(&self) -> Result<Entry, AllocError>
        ensures { IfOk result (λ e. e ≡ self.now) }
    {
        Ok(Entry {
            user: self.user,
            msg: self.msg.copy()?,
        })
    }
}
