//! The values of the attribute lines so far, by their keys. A key is found by its hash, and so is a
//! vertex that has a value under it, so neither question goes over the lines.

ghost use Rattle.std.specs.Prelude.{◌↔◌, [], List, IsTrue, MatchOption, OnOk};
ghost use Rattle.clu_rules.specs.Lines.{Rule as Said, as_rule, valued};
ghost use Rattle.clu_rules.specs.Puts.{AreValues};
ghost use Rattle.clu_rules.specs.Reading.{HasSome};
ghost use Rattle.clu_rules.specs.Attributes.{AreAttributes, TakesRule, NotesVertex, PushesValue};

use crate::rule::Rule;
use crate::values::Value;
use clu_partition::{Seq, Vertex};
use indexmap::{IndexMap, IndexSet};
use std::alloc::{AllocError, Global};

/// The values under each key, and the vertices that have one.
#[derive(Debug, Drop)]
pub(crate) struct Attributes<'a> {
    values: IndexMap<&'a [u8], Seq<Value<'a>>>,
    given: IndexSet<(&'a [u8], u32)>,
}

impl<'a> Attributes<'a> {
    /// Those of no lines.
    pub(crate) fn new(alloc: Global) -> Self
        ensures { AreAttributes [] result }
    {
        Attributes {
            values: IndexMap::new(alloc),
            given: IndexSet::new(alloc),
        }
    }

    /// Whether the vertex has a value under the key.
    pub(crate) fn has(&self, key: &'a [u8], vertex: Vertex) -> bool
        ensures { (rules : List Said) → AreAttributes rules self.now
            → IsTrue result ↔ HasSome rules key.now vertex }
    {
        self.given.contains(&(key, vertex.0))
    }

    /// The values under the key in the order of their lines; none where no line gives one.
    pub(crate) fn of(&self, key: &[u8]) -> Option<&Seq<Value<'a>>>
        ensures { (rules : List Said) → AreAttributes rules self.now → MatchOption result
            (AreValues rules key.now []) (λ values. AreValues rules key.now values.now) }
    {
        self.values.get(key)
    }

    /// Notes the rule of a line more. After an error the table is of no use.
    pub(crate) fn note(&mut self, alloc: Global, rule: &Rule<'a>) -> Result<(), AllocError>
        ensures { OnOk result (TakesRule (as_rule rule.now) self.old self.new) }
    {
        match rule {
            Rule::Attribute(vertex, key, value) => self.add(alloc, *vertex, key, value),
            _ => Ok(()),
        }
    }

    /// Notes that a line gives the vertex the value under the key.
    #[tactic(auto, using(crate::proofs::AttributeLaws::attribute_added))]
    fn add(
        &mut self,
        alloc: Global,
        vertex: Vertex,
        key: &'a [u8],
        value: &'a [u8],
    ) -> Result<(), AllocError>
        ensures { OnOk result (TakesRule (valued vertex key.now value.now) self.old self.new) }
    {
        note_vertex(&mut self.given, key, vertex)?;
        push_value(alloc, &mut self.values, key, vertex, value)?;
        Ok(())
    }
}

/// Notes that a vertex has a value under a key.
fn note_vertex<'a>(
    given: &mut IndexSet<(&'a [u8], u32)>,
    key: &'a [u8],
    vertex: Vertex,
) -> Result<(), AllocError>
    ensures { OnOk result (NotesVertex key.now vertex given.old given.new) }
{
    given.insert((key, vertex.0))?;
    Ok(())
}

/// Puts a value behind those of its key.
fn push_value<'a>(
    alloc: Global,
    table: &mut IndexMap<&'a [u8], Seq<Value<'a>>>,
    key: &'a [u8],
    vertex: Vertex,
    value: &'a [u8],
) -> Result<(), AllocError>
    ensures { OnOk result (PushesValue key.now (record { vertex = vertex; value = value.entry })
        table.old table.new) }
{
    if let Some(values) = table.get_mut(key) {
        values.push(Value { vertex, value })?;
        return Ok(());
    }
    let mut values = Seq::new(alloc);
    values.push(Value { vertex, value })?;
    table.insert(key, values)?;
    Ok(())
}
