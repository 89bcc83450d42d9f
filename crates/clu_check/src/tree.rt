//! Reading the items of a part's proof, a tree in preorder: whether they make one, and the greatest bound of its leaves.
//! The open subtrees are one path of choices, of which each says whether its other side waits, and one state goes along,
//! built anew where a subtree ends: so what is kept grows with the depth of the tree and not with its size.

ghost use Rattle.std.specs.Prelude.{◌≡◌, ◌≤◌, ◌<◌, ◌↔◌, ◌⊎◌, ◌∷◌, ◌++◌, ◌≤ℤ◌, ℕ, ℤ, [], true, false, Some, None, length, slice_index, Contains, IfOk, OnOk, IfSome, IsNone, IsTrue, IsErrOf};
ghost use Rattle.clu_state.specs.State.{State, IsState, IsFree, CanDecide, CanDecideAll, decided, undecided};
ghost use Rattle.clu_reduce.specs.Reduction.{decision_of as decision_of_step};
ghost use Rattle.clu_cert.specs.Upper.{HasUpper, FailsAt, IsBadStep, IsBadLeaf, EndsEarly, GoesOn};
ghost use Rattle.clu_check.specs.Tree.{choice_decision, after, CanGo, waiting, base_of, opened, IsReading, Takes, IsBadNext, with_decisions};

use clu_cert::Item;
use clu_partition::{PairTable, Start, Vertex};
use clu_reduce::{Step, holds};
use clu_rows::{Leaf, Residual, leaf_bound};
use clu_state::{Decision, Rebuilt, Situation};
use std::alloc::{AllocError, Global};

/// Why the items of a part prove no bound. Numbers count the part's items from 1.
#[derive(Clone, Copy, Debug, PartialEq, Eq)]
pub enum TreeFault {
    /// A reduction that doesn't hold, or a branch on a pair that isn't free.
    Step {
        /// Its number.
        number: u64,
    },
    /// A leaf that has no bound.
    Leaf {
        /// Its number.
        number: u64,
    },
    /// The items end before the tree is whole, or go on after it.
    Unfinished,
    /// Want of memory.
    Memory,
}

impl From<AllocError> for TreeFault {
    ghost use Rattle.clu_check.specs.declared.tree.TreeFault.{TreeFault};

    ghost from_gives = { λ _ e. e ≡ TreeFault.Memory };

    fn from(_: AllocError) -> Self {
        TreeFault::Memory
    }
}

/// The greatest bound of a leaf of the tree that the items make from the part's state, which has these
/// decisions.
pub fn upper_of(
    alloc: Global,
    pairs: &PairTable,
    start: &Start,
    part: &[Vertex],
    decisions: &[Decision],
    items: &[Item],
    scratch: &mut Residual,
) -> Result<i128, TreeFault>
    requires valid { IsState (with_decisions (undecided pairs.now start.now part.now) decisions.now) }
    requires room { pairs.now.n ≤ scratch.old.n }
    ensures upper { IfOk result (λ upper.
        HasUpper (with_decisions (undecided pairs.now start.now part.now) decisions.now) items.now upper) }
    ensures step { (number : ℕ) → IsErrOf result (TreeFault.Step number) → FailsAt IsBadStep
        (with_decisions (undecided pairs.now start.now part.now) decisions.now) items.now number }
    ensures leaf { (number : ℕ) → IsErrOf result (TreeFault.Leaf number) → FailsAt IsBadLeaf
        (with_decisions (undecided pairs.now start.now part.now) decisions.now) items.now number }
    ensures unfinished { IsErrOf result TreeFault.Unfinished
        → EndsEarly (with_decisions (undecided pairs.now start.now part.now) decisions.now) items.now
        ⊎ GoesOn (with_decisions (undecided pairs.now start.now part.now) decisions.now) items.now }
    ensures room { scratch.new.n ≡ scratch.old.n }
{
    let mut reading = begun(alloc, pairs, start, part, decisions)?;
    for (i, item) in items.iter().enumerate() {
        if let Err(fault) = reading.take(alloc, item, scratch) {
            return Err(fault.at(i as u64 + 1));
        }
    }
    let Some(upper) = reading.upper() else {
        return Err(TreeFault::Unfinished);
    };
    Ok(upper)
}

/// No item is read, and the decisions are made.
fn begun<'p>(
    alloc: Global,
    pairs: &'p PairTable,
    start: &'p Start,
    part: &'p [Vertex],
    decisions: &[Decision],
) -> Result<Reading<'p>, AllocError>
    requires { IsState (with_decisions (undecided pairs.now start.now part.now) decisions.now) }
    ensures part { IfOk result (λ r. base_of r ≡ undecided pairs.now start.now part.now) }
    ensures reading { IfOk result IsReading }
    ensures whole { IfOk result (λ r. opened r
        ≡ with_decisions (undecided pairs.now start.now part.now) decisions.now ∷ []) }
    ensures greatest { IfOk result (λ r. r.greatest ≡ None) }
{
    let mut reading = Reading::new(alloc, pairs, start, part)?;
    reading.follow_all(decisions)?;
    Ok(reading)
}

/// Why an item can't be read.
#[derive(Clone, Copy)]
enum ItemFault {
    Step,
    Leaf,
    /// The tree is whole before it.
    Whole,
    Memory,
}

impl From<AllocError> for ItemFault {
    ghost use Rattle.clu_check.specs.declared.tree.ItemFault.{ItemFault};

    ghost from_gives = { λ _ e. e ≡ ItemFault.Memory };

    fn from(_: AllocError) -> Self {
        ItemFault::Memory
    }
}

impl ItemFault {
    /// The fault of the tree where the item has this number.
    fn at(self, number: u64) -> TreeFault
        ensures step { (k : ℕ) → result ≡ TreeFault.Step k → (self ≡ ItemFault.Step) × (k ≡ number) }
        ensures leaf { (k : ℕ) → result ≡ TreeFault.Leaf k → (self ≡ ItemFault.Leaf) × (k ≡ number) }
        ensures whole { result ≡ TreeFault.Unfinished → self ≡ ItemFault.Whole }
    {
        match self {
            ItemFault::Step => TreeFault::Step { number },
            ItemFault::Leaf => TreeFault::Leaf { number },
            ItemFault::Whole => TreeFault::Unfinished,
            ItemFault::Memory => TreeFault::Memory,
        }
    }
}

/// A decision on the way from the part's state to the subtree that is read next.
#[derive(Clone, Copy)]
enum Choice {
    /// The pair is together, and the subtree with it apart waits.
    First(Vertex, Vertex),
    /// No other subtree of this choice waits.
    Last(Decision),
}

impl Choice {
    fn decision(&self) -> Decision
        ensures { result ≡ choice_decision self.now }
    {
        match self {
            Choice::First(u, v) => Decision::Together(*u, *v),
            Choice::Last(decision) => *decision,
        }
    }
}

/// The greater one of the bound and the greatest so far.
fn greatest_with(greatest: Option<i128>, bound: i128) -> i128
    ensures reached { (result ≡ bound) ⊎ (greatest ≡ Some result) }
    ensures new { bound ≤ℤ result }
    ensures others { IfSome greatest (λ most. most ≤ℤ result) }
{
    match greatest {
        Some(most) => most.max(bound),
        None => bound,
    }
}

/// The state at the end of the way.
fn rebuilt_at<'p>(
    alloc: Global,
    pairs: &'p PairTable,
    start: &'p Start,
    part: &[Vertex],
    path: &[Choice],
) -> Result<Rebuilt<'p>, AllocError>
    requires valid { IsState (undecided pairs.now start.now part.now) }
    requires path { CanGo (undecided pairs.now start.now part.now) path.now }
    ensures { IfOk result (λ state. state ≡ after (undecided pairs.now start.now part.now) path.now) }
{
    let mut state = Rebuilt::new(alloc, pairs, start, part)?;
    for choice in path {
        state.decide(choice.decision())?;
    }
    Ok(state)
}

/// Goes back to the last choice whose other subtree waits and on to that subtree, and answers whether
/// there is one.
fn turn(path: &mut Vec<Choice>) -> Result<bool, AllocError>
    ensures next { (base : State) → IfOk result (λ found. IsTrue found
        → waiting base [] path.old.items ≡ after base path.new.items ∷ waiting base [] path.new.items) }
    ensures path { (base : State) → CanGo base path.old.items → IfOk result (λ _. CanGo base path.new.items) }
    ensures none { (base : State) → IfOk result (λ found. found ≡ false
        → waiting base [] path.old.items ≡ []) }
{
    while let Some(choice) = path.pop() {
        if let Choice::First(u, v) = choice {
            path.push(Choice::Last(Decision::Apart(u, v)))?;
            return Ok(true);
        }
    }
    Ok(false)
}

/// How far the items of a part are read.
#[derive(Drop)]
struct Reading<'p> {
    pairs: &'p PairTable,
    start: &'p Start,
    part: &'p [Vertex],
    /// From the part's state to the subtree that is read next.
    path: Vec<Choice>,
    /// The state at the end of the path, while a subtree is open.
    state: Rebuilt<'p>,
    /// Whether a subtree is open.
    is_open: bool,
    /// The greatest bound of the leaves so far.
    greatest: Option<i128>,
}

impl<'p> Reading<'p> {
    /// No item is read, and the tree is open.
    fn new(
        alloc: Global,
        pairs: &'p PairTable,
        start: &'p Start,
        part: &'p [Vertex],
    ) -> Result<Reading<'p>, AllocError>
        requires { IsState (undecided pairs.now start.now part.now) }
        ensures part { IfOk result (λ r. base_of r ≡ undecided pairs.now start.now part.now) }
        ensures reading { IfOk result IsReading }
        ensures some { IfOk result (λ r. r.is_open ≡ true) }
        ensures state { IfOk result (λ r. r.state ≡ undecided pairs.now start.now part.now) }
        ensures others { IfOk result (λ r. waiting (base_of r) [] r.path.items ≡ []) }
        ensures greatest { IfOk result (λ r. r.greatest ≡ None) }
    {
        Ok(Reading {
            pairs,
            start,
            part,
            path: Vec::new(alloc),
            state: Rebuilt::new(alloc, pairs, start, part)?,
            is_open: true,
            greatest: None,
        })
    }

    /// Goes to the first subtree of a branch on a free pair.
    fn enter(&mut self, u: Vertex, v: Vertex) -> Result<(), AllocError>
        requires reading { IsReading self.old }
        requires some { self.old.is_open ≡ true }
        requires free { IsFree self.old.state u v }
        ensures part { OnOk result (base_of self.new ≡ base_of self.old) }
        ensures reading { OnOk result (IsReading self.new) }
        ensures read { OnOk result (Takes self.old (Item.Branch u v) self.new) }
    {
        self.path.push(Choice::First(u, v))?;
        self.state.decide(Decision::Together(u, v))?;
        Ok(())
    }

    /// Reads a branch.
    fn branch(&mut self, u: Vertex, v: Vertex) -> Result<(), ItemFault>
        requires reading { IsReading self.old }
        requires some { self.old.is_open ≡ true }
        ensures part { OnOk result (base_of self.new ≡ base_of self.old) }
        ensures reading { OnOk result (IsReading self.new) }
        ensures read { OnOk result (Takes self.old (Item.Branch u v) self.new) }
        ensures step { IsErrOf result ItemFault.Step → IsBadNext IsBadStep self.old (Item.Branch u v) }
        ensures leaf { IsErrOf result ItemFault.Leaf → IsBadNext IsBadLeaf self.old (Item.Branch u v) }
        ensures whole { IsErrOf result ItemFault.Whole → opened self.old ≡ [] }
    {
        if !self.state.is_free(u, v) {
            return Err(ItemFault::Step);
        }
        self.enter(u, v)?;
        Ok(())
    }

    /// Goes on with a decision.
    fn follow(&mut self, decision: &Decision) -> Result<(), AllocError>
        requires reading { IsReading self.old }
        requires some { self.old.is_open ≡ true }
        requires can { CanDecide self.old.state decision.now }
        ensures part { OnOk result (base_of self.new ≡ base_of self.old) }
        ensures reading { OnOk result (IsReading self.new) }
        ensures state { OnOk result (self.new.state ≡ decided self.old.state decision.now) }
        ensures others { OnOk result (waiting (base_of self.new) [] self.new.path.items
            ≡ waiting (base_of self.old) [] self.old.path.items) }
        ensures some { OnOk result (self.new.is_open ≡ self.old.is_open) }
        ensures greatest { OnOk result (self.new.greatest ≡ self.old.greatest) }
    {
        self.path.push(Choice::Last(*decision))?;
        self.state.decide(*decision)?;
        Ok(())
    }

    /// Goes on with each decision.
    fn follow_all(&mut self, decisions: &[Decision]) -> Result<(), AllocError>
        requires reading { IsReading self.old }
        requires some { self.old.is_open ≡ true }
        requires can { CanDecideAll self.old.state decisions.now }
        ensures part { OnOk result (base_of self.new ≡ base_of self.old) }
        ensures reading { OnOk result (IsReading self.new) }
        ensures state { OnOk result (self.new.state ≡ with_decisions self.old.state decisions.now) }
        ensures others { OnOk result (waiting (base_of self.new) [] self.new.path.items
            ≡ waiting (base_of self.old) [] self.old.path.items) }
        ensures some { OnOk result (self.new.is_open ≡ self.old.is_open) }
        ensures greatest { OnOk result (self.new.greatest ≡ self.old.greatest) }
    {
        for decision in decisions {
            self.follow(decision)?;
        }
        Ok(())
    }

    /// Reads a reduction.
    fn reduce(&mut self, step: &Step) -> Result<(), ItemFault>
        requires reading { IsReading self.old }
        requires some { self.old.is_open ≡ true }
        ensures part { OnOk result (base_of self.new ≡ base_of self.old) }
        ensures reading { OnOk result (IsReading self.new) }
        ensures read { OnOk result (Takes self.old (Item.Reduce step.now) self.new) }
        ensures step { IsErrOf result ItemFault.Step → IsBadNext IsBadStep self.old (Item.Reduce step.now) }
        ensures leaf { IsErrOf result ItemFault.Leaf → IsBadNext IsBadLeaf self.old (Item.Reduce step.now) }
        ensures whole { IsErrOf result ItemFault.Whole → opened self.old ≡ [] }
    {
        if !holds(&self.state, step) {
            return Err(ItemFault::Step);
        }
        let decision = step.decision();
        self.follow(&decision)?;
        Ok(())
    }

    /// Goes to the next subtree, if there is one.
    fn close(&mut self, alloc: Global) -> Result<(), AllocError>
        requires reading { IsReading self.old }
        requires some { self.old.is_open ≡ true }
        ensures part { OnOk result (base_of self.new ≡ base_of self.old) }
        ensures reading { OnOk result (IsReading self.new) }
        ensures opened { OnOk result (opened self.old ≡ self.old.state ∷ opened self.new) }
        ensures greatest { OnOk result (self.new.greatest ≡ self.old.greatest) }
    {
        self.is_open = turn(&mut self.path)?;
        if self.is_open {
            self.state = rebuilt_at(alloc, self.pairs, self.start, self.part, &self.path)?;
        }
        Ok(())
    }

    /// Reads a leaf.
    fn leaf(&mut self, alloc: Global, leaf: &Leaf, scratch: &mut Residual) -> Result<(), ItemFault>
        requires reading { IsReading self.old }
        requires some { self.old.is_open ≡ true }
        requires room { self.old.pairs.now.n ≤ scratch.old.n }
        ensures part { OnOk result (base_of self.new ≡ base_of self.old) }
        ensures reading { OnOk result (IsReading self.new) }
        ensures read { OnOk result (Takes self.old (Item.Leaf leaf.now) self.new) }
        ensures step { IsErrOf result ItemFault.Step → IsBadNext IsBadStep self.old (Item.Leaf leaf.now) }
        ensures leaf { IsErrOf result ItemFault.Leaf → IsBadNext IsBadLeaf self.old (Item.Leaf leaf.now) }
        ensures whole { IsErrOf result ItemFault.Whole → opened self.old ≡ [] }
        ensures room { scratch.new.n ≡ scratch.old.n }
    {
        let Ok(bound) = leaf_bound(&self.state, leaf, scratch) else {
            return Err(ItemFault::Leaf);
        };
        self.greatest = Some(greatest_with(self.greatest, bound));
        self.close(alloc)?;
        Ok(())
    }

    /// Reads the next item.
    fn take(&mut self, alloc: Global, item: &Item, scratch: &mut Residual) -> Result<(), ItemFault>
        requires reading { IsReading self.old }
        requires room { self.old.pairs.now.n ≤ scratch.old.n }
        ensures part { OnOk result (base_of self.new ≡ base_of self.old) }
        ensures reading { OnOk result (IsReading self.new) }
        ensures read { OnOk result (Takes self.old item.now self.new) }
        ensures step { IsErrOf result ItemFault.Step → IsBadNext IsBadStep self.old item.now }
        ensures leaf { IsErrOf result ItemFault.Leaf → IsBadNext IsBadLeaf self.old item.now }
        ensures whole { IsErrOf result ItemFault.Whole → opened self.old ≡ [] }
        ensures room { scratch.new.n ≡ scratch.old.n }
    {
        if !self.is_open {
            return Err(ItemFault::Whole);
        }
        match item {
            Item::Branch(u, v) => self.branch(*u, *v),
            Item::Reduce(step) => self.reduce(step),
            Item::Leaf(leaf) => self.leaf(alloc, leaf, scratch),
        }
    }

    /// The greatest bound of the leaves, where the tree is whole.
    fn upper(&self) -> Option<i128>
        ensures some { IfSome result (λ upper. (opened self.now ≡ []) × (self.now.greatest ≡ Some upper)) }
        ensures none { IsNone result → (self.now.is_open ≡ true) ⊎ (self.now.greatest ≡ None) }
    {
        if self.is_open { None } else { self.greatest }
    }
}
