//! Connections.

ghost use Rattle.std.specs.Prelude.{◌≡◌};
ghost use Rattle.dp_epochs.specs.Connections.{is_open};

/// A place in the history of an epoch.
#[derive(Clone, Copy, Debug, PartialEq, Eq)]
pub struct Place {
    pub epoch: u32,
    /// How many entries of the epoch's history stand before it.
    pub index: u32,
}

/// Whether a connection has ended, and how.
#[derive(Clone, Copy, Debug, PartialEq, Eq)]
pub enum Ending {
    /// It is open.
    Running,
    /// Its user left; the Leave stands here.
    Left(Place),
    /// It was closed without a Leave, since the session could keep no event.
    Shut,
}

/// A connection of a user.
#[derive(Clone, Copy, Debug, PartialEq, Eq)]
pub struct Connection {
    pub user: u8,
    /// The epoch that the user has taken up last. What a connection says counts if this is the
    /// live one.
    pub acknowledged: u32,
    /// Where the user's Join stands.
    pub joined: Place,
    pub ending: Ending,
}

impl Connection {
    /// Whether the connection is open.
    pub fn is_open(&self) -> bool
        ensures { result ≡ is_open self.now }
    {
        match self.ending {
            Ending::Running => true,
            Ending::Left(_) => false,
            Ending::Shut => false,
        }
    }
}
