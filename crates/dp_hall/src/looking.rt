//! Looks at the machine of a hall.

/// What looks at a machine while it has the turn, as to write down a part of it at once. The
/// machine stays as it is.
pub trait Look<M> {
    /// After a look at this machine the looker may be so.
    ghost sees: { Self → M → Self → Type 0 };

    /// Looks at the machine.
    fn look(&mut self, machine: &M)
        ensures { sees self.old machine.now self.new };
}
