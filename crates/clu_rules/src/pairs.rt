//! The pairs that rules require and forbid. Each pair goes into a set with a cell for each pair of
//! vertices, so that it is listed once and in order, however many rules give it. A key's values are
//! gone over once for each word, since its pairs are in the set from then on.

ghost use Rattle.std.specs.Prelude.{◌≡◌, ◌≤◌, All, IfOk, OnOk};
ghost use Rattle.clu_rules.specs.Lines.{as_rule};
ghost use Rattle.clu_rules.specs.Puts.{Puts, OfKey, IsBelow};
ghost use Rattle.clu_rules.specs.Done.{HoldPairs, AreDone};
ghost use Rattle.clu_rules.specs.Rules.{IsListOf, RuleRequires, RuleForbids, Requires, Forbids};

use crate::Rules;
use crate::rule::Rule;
use crate::rule_set::RuleSet;
use crate::values::put_values;
use clu_partition::PairSet;
use indexmap::IndexSet;
use std::alloc::{AllocError, Global};

/// The keys whose pairs are in the sets, for each word that gives pairs of a key.
#[derive(Debug, Drop)]
struct Done<'a> {
    shared: IndexSet<&'a [u8]>,
    differing: IndexSet<&'a [u8]>,
    alike: IndexSet<&'a [u8]>,
}

/// The pairs that rules of n vertices require and forbid.
pub(crate) fn pairs_of(alloc: Global, n: u32, rules: &RuleSet<'_>) -> Result<Rules, AllocError>
    requires small { n ≤ 1000 }
    requires below { All (IsBelow n) rules.now }
    ensures n { IfOk result (λ lists. lists.n ≡ n) }
    ensures required { IfOk result (λ lists. IsListOf n (Requires rules.now) lists.required) }
    ensures forbidden { IfOk result (λ lists. IsListOf n (Forbids rules.now) lists.forbidden) }
{
    let mut tied = PairSet::new(alloc, n)?;
    let mut parted = PairSet::new(alloc, n)?;
    put_all(alloc, rules, &mut tied, &mut parted)?;
    let required = tied.pairs(alloc)?;
    let forbidden = parted.pairs(alloc)?;
    Ok(Rules {
        n,
        required,
        forbidden,
    })
}

/// Puts the pairs of all rules into the sets.
fn put_all(
    alloc: Global,
    rules: &RuleSet<'_>,
    required: &mut PairSet,
    forbidden: &mut PairSet,
) -> Result<(), AllocError>
    requires one_size { forbidden.old.n ≡ required.old.n }
    requires below { All (IsBelow required.old.n) rules.now }
    ensures required { OnOk result (Puts (Requires rules.now) required.old required.new) }
    ensures forbidden { OnOk result (Puts (Forbids rules.now) forbidden.old forbidden.new) }
{
    let list = rules.list();
    let mut done = Done {
        shared: IndexSet::new(alloc),
        differing: IndexSet::new(alloc),
        alike: IndexSet::new(alloc),
    };
    for rule in list {
        put_rule(rules, rule, &mut done, required, forbidden)?;
    }
    Ok(())
}

/// Puts the pairs that a rule requires into the one set, and those that it forbids into the other.
fn put_rule<'a>(
    rules: &RuleSet<'a>,
    rule: &Rule<'a>,
    done: &mut Done<'a>,
    required: &mut PairSet,
    forbidden: &mut PairSet,
) -> Result<(), AllocError>
    requires one_size { forbidden.old.n ≡ required.old.n }
    requires all { All (IsBelow required.old.n) rules.now }
    requires one { IsBelow required.old.n (as_rule rule.now) }
    requires done { AreDone rules.now done.old required.old forbidden.old }
    ensures required { OnOk result (Puts (RuleRequires rules.now (as_rule rule.now)) required.old required.new) }
    ensures forbidden { OnOk result (Puts (RuleForbids rules.now (as_rule rule.now)) forbidden.old forbidden.new) }
    ensures done { OnOk result (AreDone rules.now done.new required.new forbidden.new) }
{
    match rule {
        Rule::Together(u, v) => {
            required.put(*u, *v);
            Ok(())
        }
        Rule::Apart(u, v) => {
            forbidden.put(*u, *v);
            Ok(())
        }
        Rule::Attribute(..) => Ok(()),
        Rule::Share(key) => put_key(rules, key, true, &mut done.shared, required),
        Rule::Differ(key) => put_key(rules, key, true, &mut done.differing, forbidden),
        Rule::Same(key) => put_key(rules, key, false, &mut done.alike, forbidden),
    }
}

/// Puts the pairs of vertices with equal values under the key into the set, or those with different
/// ones, if the key is not done.
fn put_key<'a>(
    rules: &RuleSet<'a>,
    key: &'a [u8],
    equal: bool,
    done: &mut IndexSet<&'a [u8]>,
    set: &mut PairSet,
) -> Result<(), AllocError>
    requires below { All (IsBelow set.old.n) rules.now }
    requires done { HoldPairs (OfKey equal rules.now) done.old set.old }
    ensures put { OnOk result (Puts (OfKey equal rules.now key.now) set.old set.new) }
    ensures done { OnOk result (HoldPairs (OfKey equal rules.now) done.new set.new) }
{
    if done.insert(key)? {
        put_pairs(rules, key, equal, set);
    }
    Ok(())
}

/// Puts the pairs of a key: those of vertices with equal values under it, or with different ones.
fn put_pairs(rules: &RuleSet<'_>, key: &[u8], equal: bool, set: &mut PairSet)
    requires { All (IsBelow set.old.n) rules.now }
    ensures { Puts (OfKey equal rules.now key.now) set.old set.new }
{
    let Some(values) = rules.values(key) else {
        return;
    };
    put_values(set, equal, values.as_slice());
}
