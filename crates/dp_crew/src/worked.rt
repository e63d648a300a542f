//! What a worker notes.

ghost use Rattle.std.specs.Prelude.{◌≡◌, ◌<◌, ◌||◌, ◌++◌, ◌∷◌, [], false};
ghost use Rattle.std.specs.Prelude.{vec_len, vec_capacity};

use std::alloc::Global;

/// What a worker did.
#[derive(Drop)]
pub struct Worked<P> {
    /// A report of each link that it served, in order.
    pub reports: Vec<P>,
    /// Whether memory ran out.
    pub memory: bool,
    /// Whether one of its acts is a fault.
    pub fault: bool,
    /// Whether its wire failed.
    pub wire: bool,
}

impl<P> Worked<P> {
    /// A worker that has served no link.
    pub fn new(alloc: Global) -> Worked<P>
        ensures reports { result.reports.items ≡ [] }
        ensures flags { (result.memory ≡ false) × (result.fault ≡ false) × (result.wire ≡ false) }
    {
        Worked {
            reports: Vec::new(alloc),
            memory: false,
            fault: false,
            wire: false,
        }
    }

    /// Notes the report of a link, for which there is room, and what came of it.
    pub fn note(&mut self, report: P, memory: bool, fault: bool)
        requires { vec_len self.old.reports < vec_capacity self.old.reports }
        ensures reports { self.new.reports.items ≡ self.old.reports.items ++ report ∷ [] }
        ensures memory { self.new.memory ≡ self.old.memory || memory }
        ensures fault { self.new.fault ≡ self.old.fault || fault }
        ensures wire { self.new.wire ≡ self.old.wire }
    {
        self.reports.push_reserved(report);
        self.memory = self.memory || memory;
        self.fault = self.fault || fault;
    }
}
