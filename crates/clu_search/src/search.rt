//! Branch and bound (Land and Doig, 1960), best leaf first, on a pair of vertices that share a block or
//! don't, as in Grötschel and Wakabayashi, 1989. Each split node's two states hold all partitions of its own
//! between them, so the greatest bound of a leaf bounds them all.

ghost use Rattle.std.specs.Prelude.{◌≡◌, ◌+◌, ◌≤◌, ◌<◌, ◌^◌, ◌≤ℤ◌, IfOk, OnOk, length};
ghost use Rattle.clu_partition.specs.Partition.{below};
ghost use Rattle.clu_state.specs.State.{State};
ghost use Rattle.clu_tree.specs.Nodes.{MayStand};
ghost use Rattle.clu_search.specs.Incumbent.{IsIncumbent};
ghost use Rattle.clu_search.specs.Search.{IsAbove, IsCertOfBest, IsSearch, IsRightlyClosed, IsStopped, SameTask, made};

use crate::certify::certify;
use crate::incumbent::Incumbent;
use crate::states::States;
use clu_cert::Certificate;
use clu_node::bound_node;
use clu_objective::Problem;
use clu_partition::{Partition, Seq, Start, all_vertices};
use clu_rows::Scratch;
use clu_state::Situation;
use clu_tree::{Fresh, Tree};
use std::alloc::{AllocError, Global};

/// How far a search is.
#[derive(Drop)]
pub(crate) struct Search<'p> {
    problem: &'p Problem,
    start: &'p Start,
    states: States<'p>,
    tree: Tree<'p>,
    pub(crate) incumbent: Incumbent,
    scratch: Scratch,
}

impl<'p> Search<'p> {
    /// The tree is its root, and the better one of the groups of the rules and of the root's state is
    /// the incumbent.
    pub(crate) fn new(
        alloc: Global,
        problem: &'p Problem,
        start: &'p Start,
    ) -> Result<Search<'p>, AllocError>
        requires { length start.now.group ≡ problem.now.pairs.n }
        ensures search { IfOk result (λ s. IsSearch s) }
        ensures problem { IfOk result (λ s. s.problem.now ≡ problem.now) }
        ensures start { IfOk result (λ s. s.start.now ≡ start.now) }
        ensures unbranched { IfOk result (λ s. made s ≡ 0) }
    {
        let vertices = all_vertices(alloc, problem.pairs.n())?;
        let mut incumbent = Incumbent::first(alloc, problem, start)?;
        let mut scratch = Scratch::new(alloc, problem.pairs.n())?;
        let states = States::new(alloc, problem, start, vertices.as_slice())?;
        let root = fresh(alloc, &states.root, &mut incumbent, &mut scratch)?;
        let floor = incumbent.value;
        let members = vertices.as_slice();
        let tree = Tree::new(alloc, &problem.pairs, start, floor, members, &[], root)?;
        Ok(Search {
            problem,
            start,
            states,
            tree,
            incumbent,
            scratch,
        })
    }

    /// Splits a leaf on its pair. The child with the pair together is finished first, so that the
    /// other one is bounded beside the incumbent that it found.
    fn branch(&mut self, alloc: Global, key: usize) -> Result<(), AllocError>
        requires search { IsSearch self.old }
        requires above { IsAbove self.old key }
        ensures search { OnOk result (IsSearch self.new) }
        ensures task { OnOk result (SameTask self.old self.new) }
        ensures made { OnOk result (made self.new ≡ made self.old + 1) }
    {
        let Some(pair) = self.tree.bound_at(key).pair else {
            unreachable!()
        };
        let (u, v) = pair;
        let path = self.tree.path(alloc, key)?;
        let children = self.states.split_after(alloc, &path, u, v)?;
        let together = fresh(
            alloc,
            &children.together,
            &mut self.incumbent,
            &mut self.scratch,
        )?;
        let apart = fresh(
            alloc,
            &children.apart,
            &mut self.incumbent,
            &mut self.scratch,
        )?;
        self.tree.split(key, u, v, together, apart)?;
        self.states.children = Some(children);
        Ok(())
    }

    /// Branches as often as is allowed, while a leaf has a bound above the incumbent's value.
    pub(crate) fn run(&mut self, alloc: Global, allowed: u64) -> Result<(), AllocError>
        requires search { IsSearch self.old }
        requires unbranched { made self.old ≡ 0 }
        ensures search { OnOk result (IsSearch self.new) }
        ensures task { OnOk result (SameTask self.old self.new) }
        ensures within { OnOk result (made self.new ≤ allowed) }
        ensures stopped { OnOk result (IsStopped self.new allowed) }
    {
        for _ in 0..allowed {
            let Some(key) = self.tree.best_leaf(self.incumbent.value) else {
                return Ok(());
            };
            self.branch(alloc, key)?;
        }
        Ok(())
    }

    /// The number of branchings that were made.
    pub(crate) fn branchings(&self) -> u64
        ensures { result ≡ made self.now }
    {
        self.tree.branchings()
    }

    /// The partition, and its certificate with the greatest bound of a leaf of the tree, from which the
    /// leaves are moved into the proof.
    pub(crate) fn certificate(self, alloc: Global) -> Result<(Partition, Certificate), AllocError>
        requires { IsSearch self }
        ensures partition { IfOk result (λ found. found.0 ≡ self.entry.incumbent.partition) }
        ensures certified { IfOk result (λ found. IsCertOfBest self.entry found.1) }
    {
        let upper = self.tree.upper();
        let items = self.tree.preorder(alloc)?;
        let certificate = certify(alloc, self.problem, &self.incumbent, items, upper)?;
        Ok((self.incumbent.partition, certificate))
    }
}

/// Finishes a new node: the groups of its state are tried as the incumbent, and then it is bounded.
fn fresh<S: Situation>(
    alloc: Global,
    state: &S,
    best: &mut Incumbent,
    scratch: &mut Scratch,
) -> Result<Fresh, AllocError>
    requires all { (S.state state.now).members ≡ below (S.state state.now).pairs.n }
    requires known { IsIncumbent (S.state state.now).pairs (S.state state.now).start best.old }
    requires room { (S.state state.now).pairs.n ≤ scratch.old.n }
    ensures known { OnOk result (IsIncumbent (S.state state.now).pairs (S.state state.now).start best.new) }
    ensures risen { OnOk result (best.old.value ≤ℤ best.new.value) }
    ensures fit { IfOk result (λ fresh. MayStand (S.state state.now) fresh) }
    ensures settled { IfOk result (λ fresh. IsRightlyClosed best.new.value fresh.bound) }
    ensures room { scratch.new.n ≡ scratch.old.n }
{
    best.try_groups(alloc, state)?;
    let bound = bound_node(alloc, state, best.value, scratch)?;
    Ok(Fresh {
        steps: Seq::new(alloc),
        bound,
    })
}
