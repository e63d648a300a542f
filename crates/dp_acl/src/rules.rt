//! The rules of the layers.

ghost use Rattle.std.specs.Prelude.{
  ◌≡◌,
  ℕ,
  ◌+◌,
  ◌≤◌,
  ◌==◌,
  [],
  ◌++◌,
  Some,
  length,
  map,
  if◌then◌else◌,
  IfOk,
  IfErr,
  OnOk,
  OnErr,
};
ghost use Rattle.std.specs.Option.{option_map};
ghost use Rattle.dp_acl.specs.Table.{kept_rule};
ghost use Rattle.dp_acl.specs.Marks.{marked};
ghost use Rattle.dp_acl.specs.RuleTable.{acl_of, RulesRise};
ghost use Rattle.dp_acl.specs.Inside.{kept_of, AreRules, IsPlaceOf, IsGapFor};

use crate::id_set::IdSet;
use dp_msg_meta::{Ids, Meta};
use std::alloc::{AllocError, Global};
use std::marker::Model;

/// The rule of a layer.
#[derive(Debug, Drop)]
pub(crate) struct Rule {
    pub(crate) layer: u16,
    pub(crate) locked: bool,
    pub(crate) tier: u8,
    pub(crate) ids: IdSet,
}

/// The rules of layers, at most one for each. They are found by binary search.
#[derive(Debug, Drop)]
pub(crate) struct Rules {
    rules: Vec<Rule>,
}

impl Model for Rules {
    ghost use Rattle.std.specs.Prelude.{◌-◌, map, vec_len, vec_capacity};
    ghost use Rattle.dp_acl.specs.RuleTable.{RuleTable};

    ghost Value = { RuleTable };

    ghost use Rattle.dp_acl.specs.Inside.{kept_of, AreRules};

    ghost view = { λ r. record {
      rules = map kept_of r.rules.items;
      room = vec_capacity r.rules - vec_len r.rules;
    } };

    ghost invariant = { λ r. AreRules r.rules.items };
}

impl Rule {
    /// The LayerAcl that says the rule, which has at most 255 ids.
    fn to_acl(&self, alloc: Global) -> Result<Meta, AllocError>
        requires { length (marked self.now.ids) ≤ 255 }
        ensures { IfOk result (λ meta. meta ≡ acl_of (kept_of self.now)) }
    {
        Ok(Meta::LayerAcl {
            layer: self.layer,
            locked: self.locked,
            tier: self.tier,
            ids: Ids::from_vec(self.ids.to_vec(alloc)?),
        })
    }
}

/// The place of the layer's rule, or where it would stand.
fn place_of(rules: &[Rule], layer: u16) -> Result<usize, usize>
    requires { AreRules rules.now }
    ensures found { IfOk result (IsPlaceOf rules.now layer) }
    ensures absent { IfErr result (IsGapFor rules.now layer) }
{
    rules.binary_search_by_key(&layer, |rule| rule.layer)
}

impl Rules {
    /// No rules.
    pub(crate) fn new(alloc: Global) -> Rules
        ensures { result.rules ≡ [] }
    {
        Rules {
            rules: Vec::new(alloc),
        }
    }

    /// The allocator of the rules.
    pub(crate) fn allocator(&self) -> Global {
        *self.rules.allocator()
    }

    /// Makes room for `count` more rules.
    pub(crate) fn reserve(&mut self, count: usize) -> Result<(), AllocError>
        ensures kept { self.new.rules ≡ self.old.rules }
        ensures room { OnOk result (count ≤ self.new.room) }
        ensures spared { self.old.room ≤ self.new.room }
    {
        self.rules.reserve(count)
    }

    /// The rule of the layer.
    pub(crate) fn find(&self, layer: u16) -> Option<&Rule>
        ensures { option_map (λ found. (kept_of found.now).rule) result
            ≡ kept_rule self.now.rules layer }
    {
        match place_of(&self.rules, layer) {
            Ok(place) => Some(&self.rules[place]),
            Err(_) => None,
        }
    }

    /// Puts the rule in the place of the layer's rule, or adds it. It has at most 255 ids.
    pub(crate) fn put(&mut self, rule: Rule)
        requires room { 1 ≤ self.old.room }
        requires short { length (marked rule.ids) ≤ 255 }
        ensures rules { (layer : ℕ) → kept_rule self.new.rules layer
            ≡ (if rule.layer == layer then Some (kept_of rule).rule
            else kept_rule self.old.rules layer) }
        ensures room { self.old.room ≤ self.new.room + 1 }
    {
        match place_of(&self.rules, rule.layer) {
            Ok(place) => self.rules[place] = rule,
            Err(place) => match self.rules.insert(place, rule) {
                Ok(()) => {}
                Err(_) => unreachable!(),
            },
        }
    }

    /// Adds a LayerAcl for each rule at the end, by rising layer.
    pub(crate) fn carry(&self, metas: &mut Vec<Meta>) -> Result<(), AllocError>
        ensures carried { OnOk result
            (metas.new.items ≡ metas.old.items ++ map acl_of self.now.rules) }
        ensures rise { RulesRise 0 self.now.rules }
    {
        let alloc = *self.rules.allocator();
        for rule in &self.rules {
            metas.push(rule.to_acl(alloc)?)?;
        }
        Ok(())
    }
}
