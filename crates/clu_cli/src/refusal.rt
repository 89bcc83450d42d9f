//! Why a graph file or a rules file is refused, as its reader or the objective says it, and the line that
//! tells it: the cause by its name, and its place.

ghost use Rattle.std.specs.Prelude.{◌≡◌, ◌++◌, OnOk};
ghost use Rattle.clu_cli.specs.Status.{network_line, barred_line, pace_line, refusal_line, rules_line};

use crate::lines::{push_count, push_counted, push_counts, push_line};
use clu_network::NetError;
use clu_objective::ObjError;
use clu_pace::PaceError;
use clu_rules::RuleError;
use std::alloc::AllocError;

/// Why a graph file or a rules file is refused.
#[derive(Clone, Copy, Debug, PartialEq, Eq)]
pub enum Refusal {
    /// It is no graph of the PACE challenge.
    Graph(PaceError),
    /// It is no edge list.
    Network(NetError),
    /// Its edge list has no problem of the objective.
    Objective(ObjError),
    /// It is no rules file for the vertices of the graph.
    Rules(RuleError),
}

/// The line of a refusal.
pub(crate) fn push_refusal(out: &mut Vec<u8>, refusal: Refusal) -> Result<(), AllocError>
    ensures { OnOk result (out.new.items ≡ out.old.items ++ refusal_line refusal) }
{
    match refusal {
        Refusal::Graph(error) => push_pace(out, error),
        Refusal::Network(error) => push_network(out, error),
        Refusal::Objective(error) => push_objective(out, error),
        Refusal::Rules(error) => push_rules(out, error),
    }
}

/// The line of a graph's refusal.
fn push_pace(out: &mut Vec<u8>, error: PaceError) -> Result<(), AllocError>
    ensures { OnOk result (out.new.items ≡ out.old.items ++ pace_line error) }
{
    match error {
        PaceError::NoHeader => push_line(out, "clu: graph NoHeader"),
        PaceError::BadHeader { line } => push_count(out, "clu: graph BadHeader line ", line),
        PaceError::BadLine { line } => push_count(out, "clu: graph BadLine line ", line),
        PaceError::VertexOut { line } => push_count(out, "clu: graph VertexOut line ", line),
        PaceError::Loop { line } => push_count(out, "clu: graph Loop line ", line),
        PaceError::Repeated { line } => push_count(out, "clu: graph Repeated line ", line),
        PaceError::EdgeCount { stated, found } => {
            push_counts(out, "clu: graph EdgeCount ", u64::from(stated), found)
        }
        PaceError::TooManyVertices { line } => {
            push_count(out, "clu: graph TooManyVertices line ", line)
        }
        PaceError::Memory => push_line(out, "clu: memory"),
    }
}

/// The line of an edge list's refusal.
fn push_network(out: &mut Vec<u8>, error: NetError) -> Result<(), AllocError>
    ensures { OnOk result (out.new.items ≡ out.old.items ++ network_line error) }
{
    match error {
        NetError::TooManyFields { line } => push_count(out, "clu: graph TooManyFields line ", line),
        NetError::BadWeight { line } => push_count(out, "clu: graph BadWeight line ", line),
        NetError::TooManyVertices { line } => {
            push_count(out, "clu: graph TooManyVertices line ", line)
        }
        NetError::TooManyLines => push_line(out, "clu: graph TooManyLines"),
        NetError::NotText { line } => push_count(out, "clu: graph NotText line ", line),
        NetError::Memory => push_line(out, "clu: memory"),
    }
}

/// The line of what bars an objective.
fn push_objective(out: &mut Vec<u8>, error: ObjError) -> Result<(), AllocError>
    ensures { OnOk result (out.new.items ≡ out.old.items ++ barred_line error) }
{
    match error {
        ObjError::NegativeWeight { line } => push_count(
            out,
            "clu: graph NegativeWeight line ",
            line,
        ),
        ObjError::NoWeight => push_line(out, "clu: graph NoWeight"),
        ObjError::TotalWeight { sum } => push_counted(out, "clu: graph TotalWeight ", sum),
        ObjError::Memory => push_line(out, "clu: memory"),
    }
}

/// The line of a rules file's refusal.
fn push_rules(out: &mut Vec<u8>, error: RuleError) -> Result<(), AllocError>
    ensures { OnOk result (out.new.items ≡ out.old.items ++ rules_line error) }
{
    match error {
        RuleError::BadRule { line } => push_count(out, "clu: rules BadRule line ", line),
        RuleError::UnknownVertex { line } => push_count(
            out,
            "clu: rules UnknownVertex line ",
            line,
        ),
        RuleError::AttributeTwice { line } => push_count(
            out,
            "clu: rules AttributeTwice line ",
            line,
        ),
        RuleError::Memory => push_line(out, "clu: memory"),
    }
}
