//! The checks of a play that a row names. A line that is repeated is checked several times, and named once.

ghost use Rattle.std.specs.Prelude.{◌≡◌, ◌++◌, ◌∷◌, [], if◌then◌else◌, IfOk, OnOk, map};
ghost use Rattle.lin_tool.specs.campaign.Checks.{check_of, first_checks, is_named, is_same_check, is_wanted};

use lin_bench::{Judgement, is_unmet};
use lin_live::{what_text, without_space};
use lin_parts::Cluster;
use lin_text::Text;
use std::alloc::{AllocError, Global};

/// What is named of a check.
#[derive(Drop)]
struct Check {
    /// The number of the line of the script's own file.
    line: u64,
    /// What the line expects.
    what: Text,
}

/// Returns what is named of a check. An error means out of memory.
fn check_of(alloc: Global, cluster: &Cluster, judgement: &Judgement) -> Result<Check, AllocError>
    ensures { IfOk result (λ check. check ≡ check_of cluster.now judgement.now) }
{
    let what = what_text(alloc, cluster, &judgement.judged)?;
    Ok(Check {
        line: judgement.place.own,
        what: Text::copied(alloc, without_space(what.as_slice()))?,
    })
}

fn is_same_check(one: &Check, other: &Check) -> bool
    ensures { result ≡ is_same_check one.now other.now }
{
    one.line == other.line && one.what.as_slice() == other.what.as_slice()
}

/// Whether a check is one of these.
fn is_named(before: &[Check], check: &Check) -> bool
    ensures { result ≡ is_named before.now check.now }
{
    before.iter().any(|other| is_same_check(other, check))
}

/// Whether a check is wanted: each one, or one that failed.
fn is_wanted(failed: bool, judgement: &Judgement) -> bool
    ensures { result ≡ is_wanted failed judgement.now }
{
    !failed || is_unmet(&judgement.judged)
}

/// Adds a check to those that are named, unless it is one of them. An error means out of memory.
fn add_first<'a>(
    firsts: &mut Vec<&'a Judgement>,
    before: &mut Vec<Check>,
    alloc: Global,
    cluster: &Cluster,
    judgement: &'a Judgement,
) -> Result<(), AllocError>
    ensures firsts { OnOk result (map (λ j. j.now) firsts.new.items ≡ map (λ j. j.now) firsts.old.items
        ++ (if is_named before.old.items (check_of cluster.now judgement.now) then [] else judgement.now ∷ [])) }
    ensures before { OnOk result (before.new.items ≡ before.old.items
        ++ (if is_named before.old.items (check_of cluster.now judgement.now) then []
        else check_of cluster.now judgement.now ∷ [])) }
{
    let check = check_of(alloc, cluster, judgement)?;
    if !is_named(before.as_slice(), &check) {
        firsts.push(judgement)?;
        before.push(check)?;
    }
    Ok(())
}

/// Returns the checks that a row names, all of them or those that failed: of each line with what it expects the
/// first one, in order. An error means out of memory.
pub(crate) fn first_checks<'a>(
    alloc: Global,
    cluster: &Cluster,
    failed: bool,
    judgements: &'a [Judgement],
) -> Result<Vec<&'a Judgement>, AllocError>
    ensures { IfOk result (λ v. map (λ j. j.now) v.items ≡ first_checks cluster.now failed judgements.now) }
{
    let mut firsts = Vec::new(alloc);
    let mut before = Vec::new(alloc);
    for one in judgements {
        if is_wanted(failed, one) {
            add_first(&mut firsts, &mut before, alloc, cluster, one)?;
        }
    }
    Ok(firsts)
}
