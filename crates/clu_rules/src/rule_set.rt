//! The rules of the lines read so far, in order, with the table of their attributes beside them, so
//! that what a line says of earlier ones is asked of the table and not of the list.

ghost use Rattle.std.specs.Prelude.{◌≡◌, ◌↔◌, ◌++◌, [], ◌∷◌, IsTrue, MatchOption, IfOk, map};
ghost use Rattle.clu_rules.specs.Lines.{as_rule};
ghost use Rattle.clu_rules.specs.Puts.{AreValues};
ghost use Rattle.clu_rules.specs.Reading.{GivesTwice};

use crate::attributes::Attributes;
use crate::rule::{Rule, copy_of};
use crate::values::Value;
use clu_partition::Seq;
use std::alloc::{AllocError, Global};
use std::marker::Model;

/// The rules of the lines so far.
#[derive(Debug, Drop)]
pub(crate) struct RuleSet<'a> {
    list: Seq<Rule<'a>>,
    attributes: Attributes<'a>,
}

impl<'a> Model for RuleSet<'a> {
    ghost use Rattle.std.specs.Prelude.{List, map};
    ghost use Rattle.clu_rules.specs.Lines.{Rule as Said, as_rule};
    ghost use Rattle.clu_rules.specs.Attributes.{AreAttributes};

    ghost Value = { List Said };

    ghost view = { λ s. map as_rule s.list };

    ghost invariant = { λ s. AreAttributes (map as_rule s.list) s.attributes };
}

impl<'a> RuleSet<'a> {
    /// No rules.
    pub(crate) fn new(alloc: Global) -> Self
        ensures { result ≡ [] }
    {
        RuleSet {
            list: Seq::new(alloc),
            attributes: Attributes::new(alloc),
        }
    }

    /// The rules in the order of their lines.
    pub(crate) fn list(&self) -> &[Rule<'a>]
        ensures { map as_rule result.now ≡ self.now }
    {
        self.list.as_slice()
    }

    /// Whether one of the rules gives the vertex of this one a value under its key.
    pub(crate) fn gives_twice(&self, rule: &Rule<'a>) -> bool
        ensures { IsTrue result ↔ GivesTwice self.now (as_rule rule.now) }
    {
        match rule {
            Rule::Attribute(vertex, key, _) => self.attributes.has(key, *vertex),
            _ => false,
        }
    }

    /// The values under a key in the order of their lines; none where no line gives one.
    pub(crate) fn values(&self, key: &[u8]) -> Option<&Seq<Value<'a>>>
        ensures { MatchOption result (AreValues self.now key.now [])
            (λ values. AreValues self.now key.now values.now) }
    {
        self.attributes.of(key)
    }

    /// The rules with one more.
    pub(crate) fn with(self, alloc: Global, rule: &Rule<'a>) -> Result<Self, AllocError>
        ensures { IfOk result (λ rules. rules ≡ self.entry ++ as_rule rule.now ∷ []) }
    {
        let mut list = self.list;
        let mut attributes = self.attributes;
        attributes.note(alloc, rule)?;
        list.push(copy_of(rule))?;
        Ok(RuleSet { list, attributes })
    }
}
