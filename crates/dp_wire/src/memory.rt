//! A wire in memory, over links that are given beforehand.

ghost use Rattle.std.specs.Prelude.{◌≡◌, ◌+◌, ◌-◌, ◌≤◌, ◌↔◌, ◌⊎◌, [], Ok, Err, None, Some};
ghost use Rattle.std.specs.Prelude.{IfOk, OnOk, OnErr, OnSome, vec_len, vec_capacity};
ghost use Rattle.dp_io.specs.Faults.{HasCause, IsDue};
ghost use Rattle.dp_wire.specs.Links.{Accepts, Dials, GivesBack, HandsOutNext};
ghost use Rattle.dp_wire.specs.Causes.{is_wire_fault};
ghost use Rattle.dp_wire.specs.Memory.{WireState, shown, plan_after};

use crate::{Wire, WireError};
use dp_io::{FaultPlan, MemSink, MemSource};
use std::alloc::AllocError;
use std::collections::VecDeque;
use std::marker::Model;
use std::snapshot::Snapshot;

/// A wire in memory, which hands out given links in order and fails at chosen calls.
#[derive(Drop)]
pub struct MemWire {
    to_come: VecDeque<(MemSource, MemSink)>,
    given: Vec<Snapshot<(MemSource, MemSink)>>,
    back: Vec<(MemSource, MemSink)>,
    plan: FaultPlan,
}

impl Model for MemWire {
    ghost Value = { WireState };

    ghost view = { λ w. record {
      links = record {
        to_come = w.to_come.items;
        given = shown w.given.items;
        back = w.back.items;
      };
      room = vec_capacity w.back - vec_len w.back;
      plan = w.plan;
    } };
}

impl MemWire {
    /// A wire with these links to come. It fails at the calls of `accept` and `dial`, counted
    /// together from 1, whose numbers are in `fails`.
    pub fn new(links: Vec<(MemSource, MemSink)>, fails: Vec<u64>) -> MemWire
        ensures links { result.links
            ≡ record { to_come = links.items; given = []; back = [] } }
        ensures plan { result.plan ≡ record { fails = fails.items; calls = 0; faults = 0 } }
    {
        let alloc = *links.allocator();
        MemWire {
            to_come: VecDeque::from_vec(links),
            given: Vec::new(alloc),
            back: Vec::new(alloc),
            plan: FaultPlan::new(fails),
        }
    }

    /// The links that came back.
    pub fn back(&self) -> &[(MemSource, MemSink)]
        ensures { result.now ≡ self.now.links.back }
    {
        &self.back
    }

    /// Hands out the next link, if there is one, and makes the room to take it back.
    fn next_link(&mut self) -> Result<Option<(MemSource, MemSink)>, AllocError>
        ensures links { HandsOutNext self.old.links result self.new.links }
        ensures memory { OnErr result (¬ (self.old.links.to_come ≡ [])) }
        ensures room { IfOk result (λ link. OnSome link (1 ≤ self.new.room)) }
        ensures grown { self.old.room ≤ self.new.room }
        ensures plan { self.new.plan ≡ self.old.plan }
    {
        if self.to_come.is_empty() {
            return Ok(None);
        }
        self.back.reserve(1)?;
        self.given.reserve(1)?;
        let Some(link) = self.to_come.pop_front() else {
            return Ok(None);
        };
        self.given.push_reserved(Snapshot::of(&link));
        Ok(Some(link))
    }
}

impl Wire for MemWire {
    type Rx = MemSource;

    type Tx = MemSink;

    ghost links = { λ w. Some w.links };

    ghost faults = { λ w. w.plan.faults };

    ghost room = { λ w. w.room };

    fn accept(&mut self) -> Result<Option<(MemSource, MemSink)>, WireError>
        ensures links { Accepts (Some self.old.links) result (Some self.new.links) }
        ensures room { IfOk result (λ link. OnSome link (1 ≤ self.new.room)) }
        ensures cause { HasCause is_wire_fault self.old.plan.faults self.new.plan.faults result }
        ensures memory { result ≡ Err WireError.Memory
            → self.new.plan.faults ≡ self.old.plan.faults }

        // It fails at the listed calls alone. At the others there is no link exactly if none is to
        // come. So it runs out of memory only for a link that it has.
        ensures failed { (result ≡ Err WireError.Failed) ↔ IsDue self.old.plan }
        ensures none { (result ≡ Ok None)
            ↔ ((¬ IsDue self.old.plan) × (self.old.links.to_come ≡ [])) }
        ensures grown { self.old.room ≤ self.new.room }
        ensures plan { self.new.plan ≡ plan_after self.old.plan result }
    {
        if self.plan.next_fails() {
            let _ = self.plan.fail();
            return Err(WireError::Failed);
        }
        Ok(self.next_link()?)
    }

    fn dial(&mut self) -> Result<(MemSource, MemSink), WireError>
        ensures links { Dials (Some self.old.links) result (Some self.new.links) }
        ensures room { OnOk result (1 ≤ self.new.room) }
        ensures cause { HasCause is_wire_fault self.old.plan.faults self.new.plan.faults result }
        ensures memory { result ≡ Err WireError.Memory
            → self.new.plan.faults ≡ self.old.plan.faults }

        // It fails at the listed calls and if no link is to come.
        ensures failed { (result ≡ Err WireError.Failed)
            ↔ (IsDue self.old.plan ⊎ (self.old.links.to_come ≡ [])) }
        ensures grown { self.old.room ≤ self.new.room }
        ensures plan { self.new.plan ≡ plan_after self.old.plan result }
    {
        if self.plan.next_fails() {
            let _ = self.plan.fail();
            return Err(WireError::Failed);
        }
        match self.next_link()? {
            Some(link) => Ok(link),
            None => {
                let _ = self.plan.fail();
                Err(WireError::Failed)
            }
        }
    }

    fn done(&mut self, rx: MemSource, tx: MemSink)
        requires { 1 ≤ self.old.room }
        ensures links { GivesBack (Some self.old.links) rx tx (Some self.new.links) }
        ensures count { self.new.plan.faults ≡ self.old.plan.faults }
        ensures room { self.new.room + 1 ≡ self.old.room }
        ensures plan { self.new.plan ≡ self.old.plan }
    {
        self.back.push_reserved((rx, tx));
    }
}
