//! Partitions of vertices as labels numbered from 0 by first appearance (restricted growth strings), so that two lists of
//! labels with the same blocks are one partition, and its value: the weight inside blocks (Grötschel and Wakabayashi 1989).
ghost use Rattle.std.specs.Prelude.{◌≡◌, ◌≤◌, ◌≤ℤ◌, ◌<◌, ◌^◌, ◌==◌, [], ℕ, pos, length, All, IfOk, replicate, slice_index, unsigned_abs};
ghost use Rattle.clu_partition.specs.Pairs.{total_of, weight_of};
ghost use Rattle.clu_partition.specs.Sums.{only_if};
ghost use Rattle.clu_partition.specs.Values.{value_on, value_by_place};
ghost use Rattle.clu_partition.specs.Partition.{below, EachOnce, IsPartition, SameBlocks, block_count_of, blocks_of};
ghost use Rattle.clu_partition.specs.Placing.{NoLabelTwice, IsPlaced};

use crate::sums::pair_sum;
use crate::{PairTable, Seq, Vertex};
use std::alloc::{AllocError, Global};
use std::marker::Model;

/// A partition of vertices into blocks, which contracts see as the list of the vertices' labels,
/// numbered from 0 by first appearance.
#[derive(Debug, Drop)]
pub struct Partition {
    labels: Vec<u32>,
    count: u32,
}

impl Model for Partition {
    ghost use Rattle.std.specs.Prelude.{List, ℕ};
    ghost use Rattle.clu_partition.specs.Partition.{IsCounted};

    ghost Value = { List ℕ };

    ghost view = { λ p. p.labels.items };

    ghost invariant = { λ p. IsCounted p.labels.items p.count };
}

impl Partition {
    /// The partition with the same blocks, its labels numbered from 0 by first appearance.
    #[tactic(auto, using(crate::proofs::Numbering::none, crate::proofs::Numbering::one_more, crate::proofs::Numbering::is_partition, crate::proofs::Numbering::same_blocks))]
    pub fn from_labels(alloc: Global, labels: &[u32]) -> Result<Partition, AllocError>
        requires { length labels.now ≤ 1000 }
        ensures partition { IfOk result (λ p. IsPartition (length labels.now) p) }
        ensures same { IfOk result (λ p. SameBlocks labels.now p) }
        ensures once { IfOk result (λ p. EachOnce (length labels.now) (blocks_of p)) }
    {
        let mut firsts: Vec<u32> = Vec::new(alloc);
        let mut numbered: Vec<u32> = Vec::with_capacity(alloc, labels.len())?;
        for label in labels {
            let place = place_in(&mut firsts, *label)?;
            numbered.push(place as u32)?;
        }
        let count = firsts.len() as u32;
        Ok(Partition {
            labels: numbered,
            count,
        })
    }

    /// The label of each vertex.
    pub fn labels(&self) -> &[u32]
        ensures { result.now ≡ self.now }
    {
        &self.labels
    }

    /// The number of blocks.
    pub fn block_count(&self) -> u32
        ensures { result ≡ block_count_of self.now }
    {
        self.count
    }

    /// The blocks in the order of their labels, the vertices of each rising.
    #[tactic(auto, using(crate::proofs::Blocks::divided_none, crate::proofs::Blocks::divided_more, crate::proofs::Blocks::divided_all, crate::proofs::Blocks::label_below))]
    pub fn blocks(&self, alloc: Global) -> Result<Vec<Seq<Vertex>>, AllocError>
        ensures { IfOk result (λ blocks. blocks.items ≡ blocks_of self.now) }
    {
        let mut blocks = empty_blocks(alloc, self.count as usize)?;
        for (v, label) in self.labels.iter().enumerate() {
            let block = &mut blocks[*label as usize];
            block.push(Vertex(v as u32))?;
        }
        Ok(blocks)
    }

    /// The value of the partition: the sum of the weights of the pairs that share a block.
    pub fn value(&self, pairs: &PairTable) -> i128
        requires { length self.now ≡ pairs.now.n }
        ensures value { result ≡ value_on (weight_of pairs.now) (slice_index self.now) (below pairs.now.n) }
        ensures small { pos (unsigned_abs result) ≤ℤ total_of pairs.now }
    {
        let n = self.labels.len() as u32;
        pair_sum(n, |i, j| {
            let pair = (Vertex(i), Vertex(j));
            self.shared_weight(i, j, pair, pairs)
        })
    }

    /// The value of the partition where its labels belong to members, the label at place i to the
    /// member at place i.
    pub fn value_on(&self, members: &[Vertex], pairs: &PairTable) -> i128
        requires one_each { length self.now ≡ length members.now }
        requires within { All (λ v. v < pairs.now.n) members.now }
        ensures value { result ≡ value_by_place (weight_of pairs.now) self.now members.now }
        ensures labelled { (label : ℕ → ℕ)
            → ((i : ℕ) → i < length members.now → label (slice_index members.now i) ≡ slice_index self.now i)
            → result ≡ value_on (weight_of pairs.now) label members.now }
    {
        let n = self.labels.len() as u32;
        pair_sum(n, |i, j| self.member_weight(i, j, members, pairs))
    }

    /// The weight of the members at places i and j where their labels are one, else 0.
    fn member_weight(&self, i: u32, j: u32, members: &[Vertex], pairs: &PairTable) -> i128
        requires one_each { length self.now ≡ length members.now }
        requires within { All (λ v. v < pairs.now.n) members.now }
        requires first { i < length members.now }
        requires second { j < length members.now }
        ensures value { result ≡ only_if (slice_index self.now i == slice_index self.now j)
            (weight_of pairs.now (slice_index members.now i) (slice_index members.now j)) }
        ensures small { unsigned_abs result ≤ 2 ^ 88 }
    {
        let pair = (members[i as usize], members[j as usize]);
        self.shared_weight(i, j, pair, pairs)
    }

    /// The weight of a pair where the labels at places i and j are one, else 0.
    fn shared_weight(&self, i: u32, j: u32, pair: (Vertex, Vertex), pairs: &PairTable) -> i128
        requires first_place { i < length self.now }
        requires second_place { j < length self.now }
        requires first { pair.0 < pairs.now.n }
        requires second { pair.1 < pairs.now.n }
        ensures value { result ≡ only_if (slice_index self.now i == slice_index self.now j)
            (weight_of pairs.now pair.0 pair.1) }
        ensures small { unsigned_abs result ≤ 2 ^ 88 }
    {
        if self.labels[i as usize] == self.labels[j as usize] {
            pairs.get(pair.0, pair.1)
        } else {
            0
        }
    }
}

fn empty_blocks(alloc: Global, count: usize) -> Result<Vec<Seq<Vertex>>, AllocError>
    ensures { IfOk result (λ blocks. blocks.items ≡ replicate count []) }
{
    let mut blocks = Vec::with_capacity(alloc, count)?;
    for _ in 0..count {
        blocks.push(Seq::new(alloc))?;
    }
    Ok(blocks)
}

/// The first place of a label, or the length where it isn't there.
fn place_of(firsts: &[u32], label: u32) -> usize
    ensures within { result ≤ length firsts.now }
    ensures found { result < length firsts.now → slice_index firsts.now result ≡ label }
    ensures absent { (k : ℕ) → k < result → slice_index firsts.now k ≡ label → ⊥ }
{
    for (i, first) in firsts.iter().enumerate() {
        if *first == label {
            return i;
        }
    }
    firsts.len()
}

/// The place of a label, which is put behind the others where it isn't there.
fn place_in(firsts: &mut Vec<u32>, label: u32) -> Result<usize, AllocError>
    requires { NoLabelTwice firsts.old.items }
    ensures { IfOk result (λ place. IsPlaced firsts.old.items firsts.new.items label place) }
{
    let place = place_of(firsts, label);
    if place == firsts.len() {
        firsts.push(label)?;
    }
    Ok(place)
}
