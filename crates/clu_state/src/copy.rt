//! A state made like another one, or taken over from another one of the same problem: then no table is allocated anew, so that a
//! search keeps a few states and rebuilds each once a node.

ghost use Rattle.std.specs.Prelude.{◌≡◌, IfOk, OnOk, OnErr};

use crate::Rebuilt;
use std::alloc::{AllocError, Global};

impl<'p> Rebuilt<'p> {
    /// A second state like this one.
    pub fn duplicate(&self, alloc: Global) -> Result<Rebuilt<'p>, AllocError>
        ensures { IfOk result (λ copy. copy ≡ self.now) }
    {
        let mut copy = Rebuilt::new(alloc, self.pairs, self.start, &self.members)?;
        copy.copy_from(alloc, self)?;
        Ok(copy)
    }

    /// Takes the decisions and the groups of another state of the same weights, rules and members, in
    /// time linear in their pairs. After an error, want of memory for the decisions, it is as it was.
    pub fn copy_from(&mut self, alloc: Global, other: &Rebuilt<'p>) -> Result<(), AllocError>
        requires pairs { self.old.pairs ≡ other.now.pairs }
        requires start { self.old.start ≡ other.now.start }
        requires members { self.old.members ≡ other.now.members }
        ensures ok { OnOk result (self.new ≡ other.now) }
        ensures err { OnErr result (self.new ≡ self.old) }
    {
        let decisions = copied(alloc, &other.decisions)?;
        self.decisions = decisions;
        self.group.copy_from_slice(&other.group);
        self.place.copy_from_slice(&other.place);
        self.weights.copy_from(&other.weights);
        self.apart.copy_from(&other.apart);
        self.fixed = other.fixed;
        Ok(())
    }
}

/// A list of these.
pub(crate) fn copied<T: Copy>(alloc: Global, items: &[T]) -> Result<Vec<T>, AllocError>
    ensures { IfOk result (λ list. list.items ≡ items.now) }
{
    let mut list = Vec::with_capacity(alloc, items.len())?;
    for item in items {
        list.push(*item)?;
    }
    Ok(list)
}
