//! The reader of rules files, and the lists of pairs that it answers. Lines are read first and pairs
//! taken from all rules afterwards, so attribute lines count wherever they stand.

ghost use Rattle.std.specs.Prelude.{◌≡◌, ◌≢◌, ◌⊎◌, ℕ, List, length, IfOk, IfErr, IsErrOf};
ghost use Rattle.clu_rules.specs.Reading.{AreRules, IsRulesFault};
ghost use Rattle.clu_rules.specs.declared.error.RuleError.{RuleError as Refusal};
ghost use Rattle.clu_rules.specs.declared.error.RuleError.TheVariants.{Memory};

use crate::RuleError;
use crate::pairs::pairs_of;
use crate::reader::read_lines;
use clu_partition::{Names, Vertex};
use std::alloc::Global;
use std::marker::Model;

/// The pairs of a rules file, whose lines are `together A B` (A and B are required), `apart A B`
/// (forbidden), `attribute A KEY VALUE`, `share KEY` (vertices with equal values under the key are
/// required), `differ KEY` (those are forbidden) and `same KEY` (vertices with different values are
/// forbidden, and one without the key is free). Attribute lines count wherever they stand. Lines
/// without fields and those that begin with `#` are skipped. An error names the first line that is
/// refused. The time is linear in the bytes and in n * n, but that each two values under a key are
/// compared, once for each of the words `share`, `differ` and `same` that the key stands behind.
pub fn read_rules<N: Names>(alloc: Global, bytes: &[u8], names: &N) -> Result<Rules, RuleError>
    ensures n { IfOk result (λ r. r.n ≡ length (N.names names.now)) }
    ensures rules { IfOk result (λ r. AreRules r.n (N.is_named names.now) bytes.now r.required r.forbidden) }
    ensures one { IfOk result (λ r. (required forbidden : List (ℕ × ℕ))
        → AreRules r.n (N.is_named names.now) bytes.now required forbidden
        → (required ≡ r.required) × (forbidden ≡ r.forbidden)) }
    ensures refused { IfErr result (λ e. (e ≡ Memory) ⊎ IsRulesFault (N.is_named names.now) bytes.now e) }
    ensures first { (e : Refusal) → IsRulesFault (N.is_named names.now) bytes.now e
        → IsErrOf result e ⊎ IsErrOf result Memory }
    ensures only { IfErr result (λ e. e ≢ Memory → (required forbidden : List (ℕ × ℕ))
        → AreRules (length (N.names names.now)) (N.is_named names.now) bytes.now required forbidden → ⊥) }
{
    let rules = match read_lines(alloc, names, bytes) {
        Ok(rules) => rules,
        Err(error) => return Err(error),
    };
    let n = names.count();
    match pairs_of(alloc, n, &rules) {
        Ok(lists) => Ok(lists),
        Err(_) => Err(RuleError::Memory),
    }
}

/// The required and the forbidden pairs of n vertices.
#[derive(Debug, Drop)]
pub struct Rules {
    pub(crate) n: u32,
    pub(crate) required: Vec<(Vertex, Vertex)>,
    pub(crate) forbidden: Vec<(Vertex, Vertex)>,
}

impl Model for Rules {
    ghost use Rattle.clu_rules.specs.Rules.{PairLists, ArePairLists};

    ghost Value = { PairLists };

    ghost view = { λ r. record { n = r.n; required = r.required.items; forbidden = r.forbidden.items } };

    ghost invariant = { λ r. ArePairLists (record { n = r.n; required = r.required.items; forbidden = r.forbidden.items }) };
}

impl Rules {
    ghost use Rattle.std.specs.Prelude.{◌≤◌};
    ghost use Rattle.clu_partition.specs.Ties.{AreBelow};
    ghost use Rattle.clu_rules.specs.Rules.{IsPairList};

    /// The number of vertices.
    pub fn n(&self) -> u32
        ensures value { result ≡ self.now.n }
        ensures small { result ≤ 1000 }
    {
        self.n
    }

    /// The required pairs, each once, the smaller vertex first, rising. Two vertices may be one.
    pub fn required(&self) -> &[(Vertex, Vertex)]
        ensures value { result.now ≡ self.now.required }
        ensures listed { IsPairList self.now.n result.now }
        ensures below { AreBelow self.now.n result.now }
    {
        &self.required
    }

    /// The forbidden pairs, each once, the smaller vertex first, rising. Two vertices may be one.
    pub fn forbidden(&self) -> &[(Vertex, Vertex)]
        ensures value { result.now ≡ self.now.forbidden }
        ensures listed { IsPairList self.now.n result.now }
        ensures below { AreBelow self.now.n result.now }
    {
        &self.forbidden
    }
}
