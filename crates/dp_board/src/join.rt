/// What an act joins.
#[derive(Clone, Copy, Debug, PartialEq, Eq)]
pub enum Join {
    /// Nothing: the act is no command.
    NoCommand,
    /// Group 0 of its user, which is never undone.
    GroupZero,
    /// A group of its user.
    InGroup {
        /// The user, by context id.
        user: u8,
        /// The position of the point that opened the group.
        group: usize,
    },
}
