/// What an entry of the history does to strokes.
#[derive(Debug, Drop)]
pub enum Act<Op> {
    /// Opens a group of the sender.
    Point,
    /// Takes back the last done group of the user `who`.
    Undo {
        /// The user whose group it is, by context id.
        who: u8,
    },
    /// Brings back an undone group of the user `who`.
    Redo {
        /// The user whose group it is, by context id.
        who: u8,
    },
    /// A command of the sender.
    Draw(Op),
    /// Sets how many of the last points undo and redo reach, from here on.
    Depth(u8),
    /// An entry that has no effect on strokes.
    Other,
}

/// An act with the user who sent it.
#[derive(Debug, Drop)]
pub struct UserAct<Op> {
    /// The sender, by context id.
    pub user: u8,
    /// What the entry does.
    pub act: Act<Op>,
}

/// What an act did to the board of a history.
#[derive(Clone, Copy, Debug, PartialEq, Eq)]
pub enum Change {
    /// Its command was drawn last.
    Drew,
    /// It moved a group: commands are gone from the board, or are back on it.
    Rebuilt,
    /// Nothing.
    Nothing,
}
