//! Why a run has no report: the exit status and the line on `err` of each cause. One enum has them all, so that no run
//! stops without a status.

ghost use Rattle.std.specs.Prelude.{◌≡◌, ◌++◌, IfOk, OnOk};
ghost use Rattle.clu_cli.specs.declared.stop.Stop.TheVariants.{Memory};
ghost use Rattle.clu_cli.specs.Status.{named_line, reject_line, stop_line, stop_status};

use crate::lines::{push_count, push_line, push_signed};
use crate::refusal::{Refusal, push_refusal};
use clu_check::Reject;
use std::alloc::{AllocError, Global};

/// Two vertices by their names.
#[derive(Debug, Drop)]
pub struct NamedPair {
    /// The name of the smaller vertex.
    pub first: Vec<u8>,
    /// The name of the other one, which may be the same.
    pub second: Vec<u8>,
}

/// Why a run has no report.
#[derive(Debug, Drop)]
pub enum Stop {
    /// The certificate file is no text of a certificate.
    BadText {
        /// The first line that can't stand where it stands.
        line: u64,
    },
    /// The certificate isn't valid, and its blocks break no rule.
    Rejected(Reject),
    /// The blocks of the certificate break a rule: the least pair that shows it.
    Broken(NamedPair),
    /// The graph file or the rules file is refused.
    Refused(Refusal),
    /// The rules contradict: the least pair that is forbidden and tied.
    Contradiction(NamedPair),
    /// The words are of no command.
    Words,
    /// A load met a fault.
    ReadFault,
    /// A write met a fault.
    WriteFault,
    /// Want of memory.
    Memory,
    /// The graph file or the rules file is longer than the limit.
    TooLong,
    /// There is no such file.
    NoFile,
}

impl From<AllocError> for Stop {
    ghost from_gives = { λ _ e. e ≡ Memory };

    fn from(_: AllocError) -> Self {
        Stop::Memory
    }
}

impl Stop {
    /// The exit status.
    pub fn status(&self) -> u8
        ensures { result ≡ stop_status self.now }
    {
        match self {
            Stop::BadText { .. } | Stop::Rejected(_) | Stop::Broken(_) => 3,
            Stop::Refused(_) => 4,
            Stop::Contradiction(_) => 5,
            Stop::Words => 6,
            Stop::ReadFault => 7,
            Stop::WriteFault => 8,
            Stop::Memory => 9,
            Stop::TooLong => 10,
            Stop::NoFile => 11,
        }
    }

    /// The line for err.
    #[tactic(auto, unfolding(crate::specs::Status::stop_line))]
    pub fn line(&self, alloc: Global) -> Result<Vec<u8>, AllocError>
        ensures { IfOk result (λ text. text.items ≡ stop_line self.now) }
    {
        let mut out = Vec::new(alloc);
        match self {
            Stop::BadText { line } => push_count(&mut out, "clu: certificate line ", *line)?,
            Stop::Rejected(reject) => push_reject(&mut out, *reject)?,
            Stop::Broken(pair) => push_pair(&mut out, "clu: rejected 3 ", pair)?,
            Stop::Refused(refusal) => push_refusal(&mut out, *refusal)?,
            Stop::Contradiction(pair) => push_pair(&mut out, "clu: contradiction ", pair)?,
            Stop::Words => push_line(&mut out, "clu: words")?,
            Stop::ReadFault => push_line(&mut out, "clu: read fault")?,
            Stop::WriteFault => push_line(&mut out, "clu: write fault")?,
            Stop::Memory => push_line(&mut out, "clu: memory")?,
            Stop::TooLong => push_line(&mut out, "clu: too long")?,
            Stop::NoFile => push_line(&mut out, "clu: no file")?,
        }
        Ok(out)
    }
}

/// The line of a rejection.
fn push_reject(out: &mut Vec<u8>, reject: Reject) -> Result<(), AllocError>
    ensures { OnOk result (out.new.items ≡ out.old.items ++ reject_line reject) }
{
    match reject {
        Reject::Shape => push_line(out, "clu: rejected 1"),
        Reject::Blocks => push_line(out, "clu: rejected 2"),
        Reject::Rule { .. } => push_line(out, "clu: rejected 3"),
        Reject::Value { found } => push_signed(out, "clu: rejected 4 ", found),
        Reject::Step { item } => push_count(out, "clu: rejected 5 item ", item),
        Reject::Parts { part } => push_count(out, "clu: rejected 6 part ", part),
        Reject::Leaf { item } => push_count(out, "clu: rejected 7 item ", item),
        Reject::Unfinished { part } => push_count(out, "clu: rejected 8 part ", part),
        Reject::Bound { found } => push_signed(out, "clu: rejected 9 ", found),
        Reject::Memory => push_line(out, "clu: memory"),
    }
}

/// A line of words, which have their blank, and the names of two vertices.
fn push_pair(out: &mut Vec<u8>, words: &str, pair: &NamedPair) -> Result<(), AllocError>
    ensures { OnOk result (out.new.items ≡ out.old.items ++ named_line words.now pair.now) }
{
    out.extend_from_slice(words.as_bytes())?;
    out.extend_from_slice(&pair.first)?;
    out.push(b' ')?;
    out.extend_from_slice(&pair.second)?;
    out.push(b'\n')?;
    Ok(())
}
