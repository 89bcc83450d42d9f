//! The reports of `solve` and `check`: the facts line by line, and the blocks by the names of their
//! vertices.

ghost use Rattle.std.specs.Prelude.{◌≡◌, ◌↔◌, ◌<◌, ◌++◌, length, All, IfOk, IsTrue, OnOk};
ghost use Rattle.std.specs.Ordering.{int_eq};
ghost use Rattle.clu_cert.specs.Text.{objective_word as word_of};
ghost use Rattle.clu_partition.specs.Partition.{block_count_of};
ghost use Rattle.clu_cli.specs.Report.{block_line, check_report, check_verdict, head, optimal, report, verdict};

use crate::lines::{push_count, push_counted, push_line, push_signed, push_word};
use clu_check::Accepted;
use clu_objective::Objective;
use clu_partition::{Names, Partition, Vertex};
use std::alloc::{AllocError, Global};

/// What a report says beside the blocks.
#[derive(Clone, Copy, Debug, PartialEq, Eq)]
pub struct Facts {
    /// What partitions are judged by.
    pub objective: Objective,
    /// The number of vertices.
    pub vertices: u32,
    /// The objective of the blocks, times the scale.
    pub value: i128,
    /// No partition is better than this number.
    pub bound: i128,
    /// The number by which value and bound are multiplied.
    pub scale: u128,
    /// The number of branchings that were made.
    pub branchings: u64,
}

impl Facts {
    /// Whether the value is the bound.
    pub fn is_optimal(self) -> bool
        ensures test { result ≡ optimal self }
        ensures equal { IsTrue result ↔ (self.value ≡ self.bound) }
    {
        self.value == self.bound
    }
}

/// The report of a partition, with a line for each block.
pub fn report_text<N: Names>(
    alloc: Global,
    facts: Facts,
    partition: &Partition,
    names: &N,
) -> Result<Vec<u8>, AllocError>
    requires { length partition.now ≡ length (N.names names.now) }
    ensures { IfOk result (λ text. text.items ≡ report facts (N.names names.now) partition.now) }
{
    let mut out = head_text(alloc, facts, partition.block_count())?;
    let blocks = partition.blocks(alloc)?;
    for block in &blocks {
        push_block(&mut out, names, block.as_slice())?;
    }
    Ok(out)
}

/// The report of an accepted certificate of a graph with so many vertices.
#[tactic(auto, unfolding(crate::specs::Report::check_report))]
pub fn check_text(
    alloc: Global,
    objective: Objective,
    vertices: u32,
    accepted: Accepted,
    scale: u128,
) -> Result<Vec<u8>, AllocError>
    ensures { IfOk result (λ text. text.items
        ≡ check_report objective vertices accepted.value accepted.bound scale) }
{
    let mut out = Vec::new(alloc);
    push_line(&mut out, "accepted")?;
    push_word(&mut out, "objective ", objective_word(objective))?;
    push_count(&mut out, "vertices ", u64::from(vertices))?;
    push_signed(&mut out, "value ", accepted.value)?;
    push_signed(&mut out, "bound ", accepted.bound)?;
    push_counted(&mut out, "scale ", scale)?;
    push_word(&mut out, "verdict ", check_verdict_text(accepted))?;
    Ok(out)
}

/// The word of an objective, as the words of a command have it.
fn objective_word(objective: Objective) -> &'static str
    ensures { result.now ≡ word_of objective }
{
    match objective {
        Objective::Edits => "edits",
        Objective::Agreement => "agreement",
        Objective::Modularity => "modularity",
    }
}

#[tactic(auto, unfolding(crate::specs::Report::verdict))]
fn verdict_text(facts: Facts) -> &'static str
    ensures { result.now ≡ verdict facts }
{
    if facts.is_optimal() {
        "optimal"
    } else {
        "gap branchings"
    }
}

/// The lines before the blocks.
#[tactic(auto, unfolding(crate::specs::Report::head))]
fn head_text(alloc: Global, facts: Facts, blocks: u32) -> Result<Vec<u8>, AllocError>
    ensures { IfOk result (λ text. text.items ≡ head facts blocks) }
{
    let mut out = Vec::new(alloc);
    push_word(&mut out, "objective ", objective_word(facts.objective))?;
    push_count(&mut out, "vertices ", u64::from(facts.vertices))?;
    push_signed(&mut out, "value ", facts.value)?;
    push_signed(&mut out, "bound ", facts.bound)?;
    push_counted(&mut out, "scale ", facts.scale)?;
    push_word(&mut out, "verdict ", verdict_text(facts))?;
    push_count(&mut out, "branchings ", facts.branchings)?;
    push_count(&mut out, "blocks ", u64::from(blocks))?;
    Ok(out)
}

/// The line of a block.
#[tactic(auto, unfolding(crate::specs::Report::block_line))]
fn push_block<N: Names>(out: &mut Vec<u8>, names: &N, block: &[Vertex]) -> Result<(), AllocError>
    requires { All (λ v. v < length (N.names names.now)) block.now }
    ensures { OnOk result (out.new.items ≡ out.old.items
        ++ block_line (N.names names.now) block.now) }
{
    out.extend_from_slice(b"block")?;
    for v in block {
        out.push(b' ')?;
        out.extend_from_slice(names.name(*v).as_bytes())?;
    }
    out.push(b'\n')?;
    Ok(())
}

/// Whether the value is the bound.
fn is_tight(accepted: Accepted) -> bool
    ensures { result ≡ int_eq accepted.value accepted.bound }
{
    accepted.value == accepted.bound
}

#[tactic(auto, unfolding(crate::specs::Report::check_verdict))]
fn check_verdict_text(accepted: Accepted) -> &'static str
    ensures { result.now ≡ check_verdict accepted.value accepted.bound }
{
    if is_tight(accepted) { "optimal" } else { "gap" }
}
