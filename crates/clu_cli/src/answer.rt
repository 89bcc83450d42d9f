//! A solved case: the search for a best partition that obeys the rules, and the report and certificate
//! that it leaves.

ghost use Rattle.std.specs.Prelude.{◌≡◌, ◌≢◌, ◌↔◌, ◌≤◌, ◌<◌, ℕ, pos, List, IfOk, if◌then◌else◌, length, slice_index};
ghost use Rattle.clu_cert.specs.Fits.{Fits};
ghost use Rattle.clu_cert.specs.Valid.{IsValid};
ghost use Rattle.clu_pace.specs.Numbers.{graph_names};
ghost use Rattle.clu_partition.specs.Closed.{IsPermitted};
ghost use Rattle.clu_partition.specs.Partition.{IsPartition};
ghost use Rattle.clu_rules.specs.Lines.{Rule};
ghost use Rattle.clu_search.specs.Count.{count};
ghost use Rattle.clu_search.specs.Outcome.{StatesItsBound, branchings_of};
ghost use Rattle.clu_cli.specs.Cases.{IsStartOf, case_of};
ghost use Rattle.clu_cli.specs.Headline.{IsAnswer};
ghost use Rattle.clu_cli.specs.Instances.{IsReached, Poses, PrintsWorth, names_of, objective_of, scale_of as scale_in, vertices_of, worth};
ghost use Rattle.clu_cli.specs.Report.{report};

use crate::instance::{Instance, Task, scale_of};
use crate::report::{Facts, report_text};
use clu_cert::Certificate;
use clu_network::Network;
use clu_pace::Graph;
use clu_partition::Partition;
use clu_search::{End, Limits, Outcome, solve};
use std::alloc::{AllocError, Global};

/// What a solved case leaves to be written.
#[derive(Drop)]
pub struct Answer {
    /// The report.
    pub text: Vec<u8>,
    /// Whether its value is its bound.
    pub optimal: bool,
    /// The evidence for both.
    pub certificate: Certificate,
}

/// Solves a task with this many branchings at most.
pub fn answer_of(alloc: Global, task: &Task, branchings: u64) -> Result<Answer, AllocError>
    requires poses { Poses task.now.instance task.now.problem }
    requires prints { PrintsWorth task.now.instance task.now.problem }
    requires sized { length task.now.start.group ≡ vertices_of task.now.instance }
    ensures { IfOk result (λ answer. (rules : List Rule)
        → IsStartOf (case_of task.now.instance rules) task.now.start
        → IsAnswer (case_of task.now.instance rules) answer.text.items answer.certificate branchings
        (if answer.optimal then 0 else 1)) }
{
    let found = search(alloc, task, branchings)?;
    let facts = facts_of(task, &found);
    let text = text_of(alloc, facts, &found.partition, &task.instance)?;
    Ok(Answer {
        text,
        optimal: facts.is_optimal(),
        certificate: found.certificate,
    })
}

/// What the report says of a search beside the blocks.
fn facts_of(task: &Task, found: &Outcome) -> Facts
    requires { Poses task.now.instance task.now.problem }
    ensures objective { result.objective ≡ objective_of task.now.instance }
    ensures vertices { result.vertices ≡ vertices_of task.now.instance }
    ensures value { result.value ≡ found.now.certificate.value }
    ensures bound { result.bound ≡ found.now.certificate.bound }
    ensures scale { pos result.scale ≡ scale_in task.now.instance }
    ensures branchings { result.branchings ≡ found.now.branchings }
{
    Facts {
        objective: task.instance.objective(),
        vertices: task.instance.n(),
        value: found.certificate.value,
        bound: found.certificate.bound,
        scale: scale_of(&task.problem),
        branchings: found.branchings,
    }
}

/// Searches for a best partition.
fn search(alloc: Global, task: &Task, branchings: u64) -> Result<Outcome, AllocError>
    requires poses { Poses task.now.instance task.now.problem }
    requires prints { PrintsWorth task.now.instance task.now.problem }
    requires sized { length task.now.start.group ≡ vertices_of task.now.instance }
    ensures partition { IfOk result (λ o. IsPartition (vertices_of task.now.instance) o.partition) }
    ensures permitted { IfOk result (λ o. IsPermitted task.now.start (slice_index o.partition)) }
    ensures labels { IfOk result (λ o. o.certificate.labels ≡ o.partition) }
    ensures value { IfOk result (λ o. o.certificate.value ≡ worth task.now.instance o.partition) }
    ensures none_better { IfOk result (λ o. (others : List ℕ) → IsPartition (vertices_of task.now.instance) others
        → IsPermitted task.now.start (slice_index others)
        → IsReached task.now.instance o.certificate.bound others) }
    ensures valid { IfOk result (λ o. IsValid task.now.problem task.now.start o.certificate) }
    ensures exact { IfOk result (λ o. StatesItsBound task.now.problem task.now.start o.certificate) }
    ensures counted { IfOk result (λ o. o.branchings < count task.now.start) }
    ensures branchings { IfOk result (λ o. o.branchings ≡ branchings_of o.certificate) }
    ensures within { IfOk result (λ o. o.branchings ≤ branchings) }
    ensures optimal { IfOk result (λ o. (o.end ≡ End.Optimal)
        ↔ (o.certificate.value ≡ o.certificate.bound)) }
    ensures gap { IfOk result (λ o. (o.end ≡ End.Branchings)
        ↔ ((o.certificate.value ≢ o.certificate.bound) × (o.branchings ≡ branchings))) }
    ensures fits { IfOk result (λ o. Fits o.certificate) }
{
    let limits = Limits { branchings };
    let found = solve(alloc, &task.problem, &task.start, &limits)?;
    Ok(found)
}

/// The report of a partition.
fn text_of(
    alloc: Global,
    facts: Facts,
    partition: &Partition,
    instance: &Instance,
) -> Result<Vec<u8>, AllocError>
    requires { length partition.now ≡ vertices_of instance.now }
    ensures { IfOk result (λ text. text.items ≡ report facts (names_of instance.now) partition.now) }
{
    match instance {
        Instance::Edits(graph) => graph_text(alloc, facts, partition, graph),
        Instance::Agreement(network) => network_text(alloc, facts, partition, network),
        Instance::Modularity(network) => network_text(alloc, facts, partition, network),
    }
}

/// The report of a partition of a graph.
#[tactic(auto, using(clu_pace::specs::NumberLaws::names_count))]
fn graph_text(
    alloc: Global,
    facts: Facts,
    partition: &Partition,
    graph: &Graph,
) -> Result<Vec<u8>, AllocError>
    requires { length partition.now ≡ graph.now.n }
    ensures { IfOk result (λ text. text.items ≡ report facts (graph_names graph.now) partition.now) }
{
    report_text(alloc, facts, partition, graph)
}

/// The report of a partition of a network.
fn network_text(
    alloc: Global,
    facts: Facts,
    partition: &Partition,
    network: &Network,
) -> Result<Vec<u8>, AllocError>
    requires { length partition.now ≡ network.now.n }
    ensures { IfOk result (λ text. text.items ≡ report facts network.now.names partition.now) }
{
    // (what is proved here of the number of vertices tells that no name stands twice)
    prove!(network.n() <= 1_000);
    report_text(alloc, facts, partition, network)
}
