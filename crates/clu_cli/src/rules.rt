//! The rules of an instance's partitions: read from the bytes of their file, with the names of the
//! instance's vertices, and closed. A contradiction is told by names.

ghost use Rattle.std.specs.Prelude.{◌≡◌, ◌<◌, [], IfErr, IfOk, length, slice_index_or};
ghost use Rattle.clu_network.specs.Naming.{IsNameOf};
ghost use Rattle.clu_cli.specs.Headline.{AreNames};
ghost use Rattle.clu_cli.specs.Instances.{named_in, names_of};
ghost use Rattle.clu_cli.specs.Steps.{StopsClosing, TextCloses};

use crate::instance::Instance;
use crate::refusal::Refusal;
use crate::stop::{NamedPair, Stop};
use clu_network::Network;
use clu_partition::{Names, Start, Vertex};
use clu_rules::{CloseError, Contradiction, RuleError, close, read_rules};
use std::alloc::{AllocError, Global};

/// Reads and closes the rules of an instance's vertices. The errors are the refusal of a line, a
/// contradiction and want of memory.
pub fn read_start(alloc: Global, bytes: &[u8], instance: &Instance) -> Result<Start, Stop>
    ensures closes { IfOk result (λ start. TextCloses (length (names_of instance.now)) (named_in instance.now) bytes.now start) }
    ensures stops { IfErr result (λ stop. StopsClosing (names_of instance.now) (named_in instance.now) bytes.now stop) }
{
    match instance {
        Instance::Edits(graph) => closed_rules(alloc, bytes, graph),
        Instance::Agreement(network) => network_rules(alloc, bytes, network),
        Instance::Modularity(network) => network_rules(alloc, bytes, network),
    }
}

/// The names of two vertices of an instance.
pub(crate) fn names_in(
    alloc: Global,
    instance: &Instance,
    u: Vertex,
    v: Vertex,
) -> Result<NamedPair, AllocError>
    requires { (u < length (names_of instance.now)) × (v < length (names_of instance.now)) }
    ensures { IfOk result (λ pair. AreNames (names_of instance.now) u v pair) }
{
    match instance {
        Instance::Edits(graph) => named_pair(alloc, graph, u, v),
        Instance::Agreement(network) => network_names(alloc, network, u, v),
        Instance::Modularity(network) => network_names(alloc, network, u, v),
    }
}

/// Reads and closes the rules of a network's vertices.
fn network_rules(alloc: Global, bytes: &[u8], network: &Network) -> Result<Start, Stop>
    ensures closes { IfOk result (λ start. TextCloses (length network.now.names) (IsNameOf network.now) bytes.now start) }
    ensures stops { IfErr result (λ stop. StopsClosing network.now.names (IsNameOf network.now) bytes.now stop) }
{
    // (what is proved here of the number of vertices tells that no name stands twice)
    prove!(network.n() <= 1_000);
    closed_rules(alloc, bytes, network)
}

/// The names of two vertices of a network.
fn network_names(
    alloc: Global,
    network: &Network,
    u: Vertex,
    v: Vertex,
) -> Result<NamedPair, AllocError>
    requires { (u < length network.now.names) × (v < length network.now.names) }
    ensures { IfOk result (λ pair. AreNames network.now.names u v pair) }
{
    prove!(network.n() <= 1_000);
    named_pair(alloc, network, u, v)
}

/// Reads and closes the rules of vertices with names.
fn closed_rules<N: Names>(alloc: Global, bytes: &[u8], names: &N) -> Result<Start, Stop>
    ensures closes { IfOk result (λ start. TextCloses (length (N.names names.now)) (N.is_named names.now) bytes.now start) }
    ensures stops { IfErr result (λ stop. StopsClosing (N.names names.now) (N.is_named names.now) bytes.now stop) }
{
    let rules = match read_rules(alloc, bytes, names) {
        Ok(rules) => rules,
        Err(RuleError::Memory) => return Err(Stop::Memory),
        Err(error) => return Err(Stop::Refused(Refusal::Rules(error))),
    };
    match close(alloc, &rules) {
        Ok(start) => Ok(start),
        Err(CloseError::Contradiction(Contradiction { u, v })) => {
            let pair = named_pair(alloc, names, u, v)?;
            Err(Stop::Contradiction(pair))
        }
        Err(CloseError::Memory) => Err(Stop::Memory),
    }
}

/// The names of two vertices.
fn named_pair<N: Names>(
    alloc: Global,
    names: &N,
    u: Vertex,
    v: Vertex,
) -> Result<NamedPair, AllocError>
    requires { (u < length (N.names names.now)) × (v < length (N.names names.now)) }
    ensures { IfOk result (λ pair. AreNames (N.names names.now) u v pair) }
{
    let first = name_of(alloc, names, u)?;
    let second = name_of(alloc, names, v)?;
    Ok(NamedPair { first, second })
}

/// The name of a vertex.
fn name_of<N: Names>(alloc: Global, names: &N, v: Vertex) -> Result<Vec<u8>, AllocError>
    requires { v < length (N.names names.now) }
    ensures { IfOk result (λ name. name.items ≡ slice_index_or (N.names names.now) v []) }
{
    let mut text = Vec::new(alloc);
    text.extend_from_slice(names.name(v).as_bytes())?;
    Ok(text)
}
