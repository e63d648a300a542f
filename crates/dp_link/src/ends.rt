//! How the calls of a link end.

use dp_epochs::Reply;

/// Who has joined over a link.
#[derive(Clone, Copy, PartialEq, Eq)]
pub struct Greeting {
    /// The number of the connection.
    pub conn: u32,
    /// The id of the user.
    pub user: u8,
    /// The epoch in which the Join stands.
    pub epoch: u32,
    /// How many entries of that epoch stand before the Join.
    pub at: u32,
}

/// Why nobody was greeted.
#[derive(Clone, Copy, Debug, PartialEq, Eq)]
pub enum GreetEnd {
    /// A read failed before the first frame was whole.
    ReadFault,
    /// A write of the answer failed.
    WriteFault,
    /// The first frame carries no Hello. It begins at this byte, the first one.
    BadMessage { at: u64 },
    /// Nothing was left to read before the first frame was whole.
    End,
    /// The session answered with this: NameRefused, Full, Ended or StoreFault.
    Refused(Reply),
    /// Memory ran out.
    Memory,
}

/// How the messages of a link ended.
#[derive(Clone, Copy, Debug, PartialEq, Eq)]
pub enum UpEnd {
    /// A Disconnect was acted.
    Left,
    /// Nothing was left to read.
    End,
    /// A read failed.
    ReadFault,
    /// The frame that begins at this byte of the link carries no message.
    BadMessage { at: u64 },
    /// The link gave more bytes than count.
    Long,
    /// The session answered a message so: Ended or StoreFault.
    Refused(Reply),
    /// Nobody was greeted. It stands in reports alone.
    NotGreeted(GreetEnd),
    /// Memory ran out.
    Memory,
}

/// How the entries for a link ended.
#[derive(Clone, Copy, Debug, PartialEq, Eq)]
pub enum DownEnd {
    /// Nothing more is to come for the connection.
    Gone,
    /// A write failed.
    WriteFault,
    /// Nobody was greeted. It stands in reports alone.
    NotGreeted,
    /// Memory ran out.
    Memory,
}
