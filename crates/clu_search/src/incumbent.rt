//! The incumbent: the best permitted partition so far. The groups of a state are themselves such a
//! partition, worth the state's fixed value, so each node gives a candidate at the cost of one reading.

ghost use Rattle.std.specs.Prelude.{◌≡◌, ◌≤◌, ◌≤ℤ◌, IfOk, OnOk, length};
ghost use Rattle.clu_partition.specs.Closed.{IsClosed};
ghost use Rattle.clu_partition.specs.Partition.{below};
ghost use Rattle.clu_state.specs.State.{fixed_value};
ghost use Rattle.clu_search.specs.Incumbent.{IsIncumbent};

use clu_objective::Problem;
use clu_partition::{Partition, Start, Vertex};
use clu_state::Situation;
use std::alloc::{AllocError, Global};

/// The best partition so far, and the sum of the weights inside its blocks.
#[derive(Drop)]
pub(crate) struct Incumbent {
    pub(crate) partition: Partition,
    pub(crate) value: i128,
}

impl Incumbent {
    /// The groups of the rules as blocks.
    pub(crate) fn first(
        alloc: Global,
        problem: &Problem,
        start: &Start,
    ) -> Result<Incumbent, AllocError>
        requires { length start.now.group ≡ problem.now.pairs.n }
        ensures known { IfOk result (λ best. IsIncumbent problem.now.pairs start.now best) }
        ensures closed { IfOk result (λ _. IsClosed start.now) }
    {
        let labels = groups_of_rules(alloc, start)?;
        let partition = Partition::from_labels(alloc, &labels)?;
        let value = partition.value(&problem.pairs);
        Ok(Incumbent { partition, value })
    }

    /// Takes the groups of a state of all vertices as blocks, where they are worth more.
    pub(crate) fn try_groups<S: Situation>(
        &mut self,
        alloc: Global,
        state: &S,
    ) -> Result<(), AllocError>
        requires all { (S.state state.now).members ≡ below (S.state state.now).pairs.n }
        requires known { IsIncumbent (S.state state.now).pairs (S.state state.now).start self.old }
        ensures known { OnOk result
            (IsIncumbent (S.state state.now).pairs (S.state state.now).start self.new) }
        ensures risen { OnOk result (self.old.value ≤ℤ self.new.value) }
        ensures tried { OnOk result (fixed_value (S.state state.now) ≤ℤ self.new.value) }
        ensures kept { fixed_value (S.state state.now) ≤ℤ self.old.value → self.new ≡ self.old }
    {
        let value = state.fixed_value();
        if value > self.value {
            let labels = state.group_labels(alloc)?;
            self.partition = Partition::from_labels(alloc, &labels)?;
            self.value = value;
        }
        Ok(())
    }
}

/// The least vertex of each vertex's group.
fn groups_of_rules(alloc: Global, start: &Start) -> Result<Vec<u32>, AllocError>
    ensures groups { IfOk result (λ labels. labels.items ≡ start.now.group) }
    ensures closed { IfOk result (λ _. IsClosed start.now) }
    ensures few { IfOk result (λ labels. length labels.items ≤ 1000) }
{
    let n = start.n();
    let mut labels = Vec::with_capacity(alloc, n as usize)?;
    for v in 0..n {
        labels.push(start.group(Vertex(v)).0)?;
    }
    Ok(labels)
}
