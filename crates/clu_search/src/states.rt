//! The states that a search keeps: that of all vertices and, from the first split on, those of the two children of the node that
//! is split. The node's own is rebuilt once along its path and then taken over for both, so no table is allocated anew.

ghost use Rattle.std.specs.Prelude.{◌≡◌, ◌++◌, [], IfOk, OnOk};
ghost use Rattle.clu_partition.specs.Partition.{below};
ghost use Rattle.clu_state.specs.State.{State, IsState, IsFree, CanDecideAll, decided};
ghost use Rattle.clu_state.specs.declared.decision.Decision.TheVariants.{Together, Apart};
ghost use Rattle.clu_cert.specs.Valid.{whole_state};
ghost use Rattle.clu_search.specs.Search.{AreChildren, AreStates};

use clu_objective::Problem;
use clu_partition::{Start, Vertex};
use clu_state::{Decision, Rebuilt, Situation};
use std::alloc::{AllocError, Global};

/// The states of the two children of a split node.
#[derive(Drop)]
pub(crate) struct Children<'p> {
    /// Of the child that has the pair together.
    pub(crate) together: Rebuilt<'p>,
    /// Of the child that has it apart.
    pub(crate) apart: Rebuilt<'p>,
}

/// What a search keeps of states between two splits.
#[derive(Drop)]
pub(crate) struct States<'p> {
    /// That of all vertices without decisions.
    pub(crate) root: Rebuilt<'p>,
    /// Those of the node that was split last, whose tables serve the next one; none before the first split.
    pub(crate) children: Option<Children<'p>>,
}

impl<'p> States<'p> {
    /// The state of all vertices, without a decision yet.
    pub(crate) fn new(
        alloc: Global,
        problem: &'p Problem,
        start: &'p Start,
        vertices: &[Vertex],
    ) -> Result<States<'p>, AllocError>
        requires valid { IsState (whole_state problem.now start.now) }
        requires vertices { vertices.now ≡ below problem.now.pairs.n }
        ensures { IfOk result (AreStates (whole_state problem.now start.now)) }
    {
        Ok(States {
            root: Rebuilt::new(alloc, &problem.pairs, start, vertices)?,
            children: None,
        })
    }

    /// The states to which a decision on u and v leads from the end of a path.
    pub(crate) fn split_after(
        &mut self,
        alloc: Global,
        path: &[Decision],
        u: Vertex,
        v: Vertex,
    ) -> Result<Children<'p>, AllocError>
        requires states { AreStates self.old.root self.old }
        requires path { CanDecideAll self.old.root path.now }
        requires free { IsFree (record self.old.root { decisions = path.now }) u v }
        ensures states { OnOk result (AreStates self.old.root self.new) }
        ensures children { IfOk result (AreChildren self.old.root) }
        ensures together { IfOk result (λ children. children.together
            ≡ decided (record self.old.root { decisions = path.now }) (Together u v)) }
        ensures apart { IfOk result (λ children. children.apart
            ≡ decided (record self.old.root { decisions = path.now }) (Apart u v)) }
    {
        let mut children = self.take_children(alloc)?;
        children.decide_after(alloc, &self.root, path, u, v)?;
        Ok(children)
    }

    /// Hands out the children's states, with whatever decisions, and makes them where none are kept.
    fn take_children(&mut self, alloc: Global) -> Result<Children<'p>, AllocError>
        requires { AreStates self.old.root self.old }
        ensures states { OnOk result (AreStates self.old.root self.new) }
        ensures children { IfOk result (AreChildren self.old.root) }
    {
        match self.children.take() {
            Some(children) => Ok(children),
            None => Ok(Children {
                together: self.root.duplicate(alloc)?,
                apart: self.root.duplicate(alloc)?,
            }),
        }
    }
}

impl<'p> Children<'p> {
    /// Follows a path from the root's state, and decides on u and v there, once for each of the two.
    fn decide_after(
        &mut self,
        alloc: Global,
        root: &Rebuilt<'p>,
        path: &[Decision],
        u: Vertex,
        v: Vertex,
    ) -> Result<(), AllocError>
        requires undecided { root.now.decisions ≡ [] }
        requires children { AreChildren root.now self.old }
        requires path { CanDecideAll root.now path.now }
        requires free { IsFree (record root.now { decisions = path.now }) u v }
        ensures together { OnOk result (self.new.together
            ≡ decided (record root.now { decisions = path.now }) (Together u v)) }
        ensures apart { OnOk result (self.new.apart
            ≡ decided (record root.now { decisions = path.now }) (Apart u v)) }
    {
        self.apart.copy_from(alloc, root)?;
        follow(&mut self.apart, path)?;
        self.together.copy_from(alloc, &self.apart)?;
        self.together.decide(Decision::Together(u, v))?;
        self.apart.decide(Decision::Apart(u, v))?;
        Ok(())
    }
}

/// Makes the decisions of a path.
fn follow(state: &mut Rebuilt, path: &[Decision]) -> Result<(), AllocError>
    requires { CanDecideAll state.old path.now }
    ensures { OnOk result (state.new ≡ record state.old { decisions = state.old.decisions ++ path.now }) }
{
    for decision in path {
        state.decide(*decision)?;
    }
    Ok(())
}
