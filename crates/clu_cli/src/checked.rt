//! A certificate that is checked against a case: what is printed where it is valid, and else what was
//! found.

ghost use Rattle.std.specs.Prelude.{◌≡◌, IfErr, IfOk, List, length};
ghost use Rattle.clu_rules.specs.Lines.{Rule};
ghost use Rattle.clu_cli.specs.Cases.{IsStartOf, case_of};
ghost use Rattle.clu_cli.specs.Headline.{IsProofOf};
ghost use Rattle.clu_cli.specs.Instances.{Poses, PrintsWorth, names_of, vertices_of};
ghost use Rattle.clu_cli.specs.Steps.{IsWithin, StopsAtCheck, StopsCheck, StopsRejected};

use crate::instance::{Instance, Task, scale_of};
use crate::report::check_text;
use crate::rules::names_in;
use crate::stop::Stop;
use clu_cert::{BadText, CertError, read_cert};
use clu_check::{Reject, check};
use std::alloc::Global;

/// The report of a certificate that is valid for a task. The errors are a bad text, a rejection and want
/// of memory.
pub fn checked(alloc: Global, task: &Task, bytes: &[u8]) -> Result<Vec<u8>, Stop>
    requires poses { Poses task.now.instance task.now.problem }
    requires prints { PrintsWorth task.now.instance task.now.problem }
    requires sized { length task.now.start.group ≡ vertices_of task.now.instance }
    ensures proof { IfOk result (λ report. (rules : List Rule)
        → IsStartOf (case_of task.now.instance rules) task.now.start
        → IsProofOf (case_of task.now.instance rules) bytes.now report.items) }
    ensures kinds { IfErr result StopsAtCheck }
    ensures stops { IfErr result (λ stop. (rules : List Rule)
        → IsStartOf (case_of task.now.instance rules) task.now.start
        → StopsCheck (case_of task.now.instance rules) bytes.now stop) }
{
    let vertices = task.instance.n();
    let certificate = match read_cert(alloc, bytes) {
        Ok(certificate) => certificate,
        Err(CertError::Bad(BadText { line })) => return Err(Stop::BadText { line }),
        Err(CertError::Memory) => return Err(Stop::Memory),
    };
    match check(alloc, &task.problem, &task.start, &certificate) {
        Ok(accepted) => {
            let report = check_text(
                alloc,
                task.instance.objective(),
                vertices,
                accepted,
                scale_of(&task.problem),
            )?;
            Ok(report)
        }
        Err(reject) => Err(turned_down(alloc, &task.instance, reject)),
    }
}

/// What stops a command whose certificate was rejected. A broken rule is told by names.
fn turned_down(alloc: Global, instance: &Instance, reject: Reject) -> Stop
    requires { IsWithin (length (names_of instance.now)) reject }
    ensures { StopsRejected (names_of instance.now) reject result }
{
    match reject {
        Reject::Memory => Stop::Memory,
        Reject::Rule { u, v } => match names_in(alloc, instance, u, v) {
            Ok(pair) => Stop::Broken(pair),
            Err(_) => Stop::Memory,
        },
        _ => Stop::Rejected(reject),
    }
}
