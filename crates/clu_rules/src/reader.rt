//! The lines of a rules file in order, up to the first that is refused. A line is held against the
//! earlier rules alone, and only for an attribute that was given before.

ghost use Rattle.std.specs.Prelude.{◌≡◌, ◌⊎◌, [], true, IfOk, IfErr, MatchResult};
ghost use Rattle.std.specs.List.{enumerate_from};
ghost use Rattle.clu_text.specs.Lines.{lines_of, fields_of};
ghost use Rattle.clu_rules.specs.Lines.{is_kept_in_rules as kept, as_rule};
ghost use Rattle.clu_rules.specs.Reading.{AddsRule, StopsAtRule, ReadsRules, IsRulesFault};
ghost use Rattle.clu_rules.specs.declared.error.RuleError.TheVariants.{Memory};

use crate::RuleError;
use crate::form::{form_of, is_kept};
use crate::rule::{Rule, rule_of};
use crate::rule_set::RuleSet;
use clu_partition::Names;
use clu_text::lines;
use std::alloc::Global;

/// The rules of all lines.
pub(crate) fn read_lines<'a, N: Names>(
    alloc: Global,
    names: &N,
    bytes: &'a [u8],
) -> Result<RuleSet<'a>, RuleError>
    ensures ok { IfOk result (λ rules. ReadsRules (N.is_named names.now) (enumerate_from 1 (lines_of bytes.now)) [] rules) }
    ensures err { IfErr result (λ e. (e ≡ Memory) ⊎ IsRulesFault (N.is_named names.now) bytes.now e) }
{
    let mut rules = RuleSet::new(alloc);
    let mut rest = lines(bytes);
    while let Some(line) = rest.next() {
        if is_kept(line.bytes) {
            let rule = match read_line(names, &rules, line.number, line.bytes) {
                Ok(rule) => rule,
                Err(error) => return Err(error),
            };
            rules = rules.with(alloc, &rule)?;
        }
    }
    Ok(rules)
}

/// The rule of a kept line.
fn read_line<'a, N: Names>(
    names: &N,
    earlier: &RuleSet<'a>,
    number: u64,
    bytes: &'a [u8],
) -> Result<Rule<'a>, RuleError>
    requires { kept (fields_of bytes.now) ≡ true }
    ensures { MatchResult result
        (λ rule. AddsRule (N.is_named names.now) earlier.now bytes.now (as_rule rule))
        (λ e. StopsAtRule (N.is_named names.now) earlier.now number bytes.now e) }
{
    let Some(form) = form_of(bytes) else {
        return Err(RuleError::BadRule { line: number });
    };
    let Some(rule) = rule_of(names, form) else {
        return Err(RuleError::UnknownVertex { line: number });
    };
    if earlier.gives_twice(&rule) {
        return Err(RuleError::AttributeTwice { line: number });
    }
    Ok(rule)
}
