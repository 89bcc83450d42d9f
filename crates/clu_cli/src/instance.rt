//! Graph files that were read: a graph or a network, with the problem of clustering that it poses. The
//! reader of its form and its objective say why a file has none.

ghost use Rattle.std.specs.Prelude.{◌≡◌, ◌≤◌, IfErr, IfOk, IfSome, length};
ghost use Rattle.clu_cli.specs.declared.form.Form.TheVariants as Asked;
ghost use Rattle.clu_cli.specs.Forms.{HasFewPlaces};
ghost use Rattle.clu_cli.specs.Instances.{IsEdgeList, IsInstance, Poses, PrintsWorth, names_of, objective_of, vertices_of};
ghost use Rattle.clu_cli.specs.Steps.{StopsList, StopsReading};

use crate::form::Form;
use crate::refusal::Refusal;
use crate::stop::Stop;
use clu_network::{NetError, Network, read_network};
use clu_objective::{ObjError, Objective, Problem, pairs_of_graph, pairs_of_network};
use clu_pace::{Graph, PaceError, read_pace};
use clu_partition::Start;
use std::alloc::Global;

/// What a graph file holds, and what its partitions are judged by.
#[derive(Debug, Drop)]
pub enum Instance {
    /// A graph, judged by edits.
    Edits(Graph),
    /// A network, judged by agreement.
    Agreement(Network),
    /// A network, judged by modularity.
    Modularity(Network),
}

/// An instance and its problem.
#[derive(Debug, Drop)]
pub struct Input {
    /// What was read.
    pub instance: Instance,
    /// The problem that it poses.
    pub problem: Problem,
}

/// What is solved or checked: an instance, the problem that it poses, and the closed rules of its
/// partitions.
#[derive(Debug, Drop)]
pub struct Task {
    /// What was read.
    pub instance: Instance,
    /// The problem that it poses.
    pub problem: Problem,
    /// Which partitions are allowed.
    pub start: Start,
}

/// Reads the bytes of a graph file of a form. The errors are the refusal of the reader or of the
/// objective, and want of memory.
pub fn read_input(alloc: Global, bytes: &[u8], form: Form) -> Result<Input, Stop>
    requires { HasFewPlaces form }
    ensures read { IfOk result (λ input. IsInstance form bytes.now input.instance) }
    ensures poses { IfOk result (λ input. Poses input.instance input.problem) }
    ensures prints { IfOk result (λ input. PrintsWorth input.instance input.problem) }
    ensures stops { IfErr result (λ stop. StopsReading form bytes.now stop) }
{
    match form {
        Form::Edits => read_graph(alloc, bytes),
        Form::Agreement(places) => read_agreement(alloc, bytes, places),
        Form::Modularity(places) => read_modularity(alloc, bytes, places),
    }
}

/// Reads a graph.
fn read_graph(alloc: Global, bytes: &[u8]) -> Result<Input, Stop>
    ensures read { IfOk result (λ input. IsInstance Asked.Edits bytes.now input.instance) }
    ensures poses { IfOk result (λ input. Poses input.instance input.problem) }
    ensures prints { IfOk result (λ input. PrintsWorth input.instance input.problem) }
    ensures stops { IfErr result (λ stop. StopsReading Asked.Edits bytes.now stop) }
{
    let graph = match read_pace(alloc, bytes) {
        Ok(graph) => graph,
        Err(PaceError::Memory) => return Err(Stop::Memory),
        Err(error) => return Err(Stop::Refused(Refusal::Graph(error))),
    };
    let problem = pairs_of_graph(alloc, &graph)?;
    Ok(Input {
        instance: Instance::Edits(graph),
        problem,
    })
}

/// Reads an edge list.
fn read_list(alloc: Global, bytes: &[u8], places: Option<u8>) -> Result<Network, Stop>
    requires { IfSome places (λ k. k ≤ 9) }
    ensures list { IfOk result (λ network. IsEdgeList places bytes.now network) }
    ensures stops { IfErr result (λ stop. StopsList places bytes.now stop) }
{
    match read_network(alloc, bytes, places) {
        Ok(network) => Ok(network),
        Err(NetError::Memory) => Err(Stop::Memory),
        Err(error) => Err(Stop::Refused(Refusal::Network(error))),
    }
}

/// Reads an edge list for agreement.
fn read_agreement(alloc: Global, bytes: &[u8], places: Option<u8>) -> Result<Input, Stop>
    requires { IfSome places (λ k. k ≤ 9) }
    ensures read { IfOk result (λ input. IsInstance (Asked.Agreement places) bytes.now input.instance) }
    ensures poses { IfOk result (λ input. Poses input.instance input.problem) }
    ensures prints { IfOk result (λ input. PrintsWorth input.instance input.problem) }
    ensures stops { IfErr result (λ stop. StopsReading (Asked.Agreement places) bytes.now stop) }
{
    let network = read_list(alloc, bytes, places)?;
    match pairs_of_network(alloc, &network, Objective::Agreement) {
        Ok(problem) => Ok(Input {
            instance: Instance::Agreement(network),
            problem,
        }),
        Err(ObjError::Memory) => Err(Stop::Memory),
        Err(error) => Err(Stop::Refused(Refusal::Objective(error))),
    }
}

/// Reads an edge list for modularity.
fn read_modularity(alloc: Global, bytes: &[u8], places: Option<u8>) -> Result<Input, Stop>
    requires { IfSome places (λ k. k ≤ 9) }
    ensures read { IfOk result (λ input. IsInstance (Asked.Modularity places) bytes.now input.instance) }
    ensures poses { IfOk result (λ input. Poses input.instance input.problem) }
    ensures prints { IfOk result (λ input. PrintsWorth input.instance input.problem) }
    ensures stops { IfErr result (λ stop. StopsReading (Asked.Modularity places) bytes.now stop) }
{
    let network = read_list(alloc, bytes, places)?;
    match pairs_of_network(alloc, &network, Objective::Modularity) {
        Ok(problem) => Ok(Input {
            instance: Instance::Modularity(network),
            problem,
        }),
        Err(ObjError::Memory) => Err(Stop::Memory),
        Err(error) => Err(Stop::Refused(Refusal::Objective(error))),
    }
}

impl Instance {
    /// What its partitions are judged by.
    pub fn objective(&self) -> Objective
        ensures { result ≡ objective_of self.now }
    {
        match self {
            Instance::Edits(_) => Objective::Edits,
            Instance::Agreement(_) => Objective::Agreement,
            Instance::Modularity(_) => Objective::Modularity,
        }
    }

    /// The number of vertices.
    pub fn n(&self) -> u32
        ensures n { result ≡ vertices_of self.now }
        ensures names { result ≡ length (names_of self.now) }
        ensures small { result ≤ 1000 }
    {
        match self {
            Instance::Edits(graph) => graph.n(),
            Instance::Agreement(network) | Instance::Modularity(network) => network.n(),
        }
    }
}

/// The number by which the printed numbers of a problem are multiplied.
pub(crate) fn scale_of(problem: &Problem) -> u128
    ensures { result ≡ problem.now.scale }
{
    problem.scale
}
