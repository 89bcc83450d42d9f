//! Decisions that are told from the last to the first: a node knows the one that it comes from, so the
//! way from the root is read from its end and turned once, and no node keeps a path of its own.

ghost use Rattle.std.specs.Prelude.{◌≡◌, ◌++◌, map, reverse, OnOk};
ghost use Rattle.clu_reduce.specs.Reduction.{decision_of};

use clu_reduce::Step;
use clu_state::Decision;
use std::alloc::AllocError;

/// Adds what the steps decide, the last first.
pub(crate) fn push_steps_back(steps: &[Step], path: &mut Vec<Decision>) -> Result<(), AllocError>
    ensures { OnOk result (path.new.items ≡ path.old.items ++ reverse (map decision_of steps.now)) }
{
    for i in (0..steps.len()).rev() {
        path.push(steps[i].decision())?;
    }
    Ok(())
}

/// Adds the decisions, the last first.
pub(crate) fn push_back(decisions: &[Decision], path: &mut Vec<Decision>) -> Result<(), AllocError>
    ensures { OnOk result (path.new.items ≡ path.old.items ++ reverse decisions.now) }
{
    for i in (0..decisions.len()).rev() {
        path.push(decisions[i])?;
    }
    Ok(())
}
