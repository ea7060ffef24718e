//! Whether the given passes made all changes and cuts of a desk.
ghost use Rattle.std.specs.Prelude.{◌≡◌, ◌⊎◌, ◌≤◌, IfErr, OnOk, sum_by};
ghost use Rattle.poly_grid.specs.declared.refusal.Refusal.TheVariants.{Unsettled};
ghost use Rattle.poly_desk.specs.Settling.{IsWrongSum, saturated};

use crate::opening::Opening;
use crate::pass::Pass;
use poly_grid::Refusal;
use std::sync::ledger::Ledger;

/// Succeeds if the passes made this many changes and cuts. If not, the refusal names the first sum that differs (changes come
/// before cuts) and what was expected.
pub(crate) fn check_shares<C: Ledger, K: Ledger, O: Opening>(
    passes: &[Pass<C, K, O>],
    changes: u64,
    cuts: u64,
) -> Result<(), Refusal>
    requires few { (changes ≤ 4294967297) × (cuts ≤ 4294967297) }
    ensures changes { OnOk result (sum_by (λ p. p.changes) passes.now ≡ changes) }
    ensures cuts { OnOk result (sum_by (λ p. p.cuts) passes.now ≡ cuts) }
    ensures why { IfErr result (λ e. IsWrongSum (sum_by (λ p. p.changes) passes.now) changes e ⊎ ((sum_by (λ p. p.changes) passes.now ≡ changes) × IsWrongSum (sum_by (λ p. p.cuts) passes.now) cuts e)) }
{
    compare(changes_of(passes), changes)?;
    compare(cuts_of(passes), cuts)
}

// Succeeds if the two numbers are equal.
fn compare(seen: u64, found: u64) -> Result<(), Refusal>
    ensures ok { OnOk result (seen ≡ found) }
    ensures why { IfErr result (λ e. (e ≡ Refusal.Unsettled seen found) × (¬ (seen ≡ found))) }
{
    if seen == found {
        Ok(())
    } else {
        Err(Refusal::Unsettled { seen, found })
    }
}

fn changes_of<C: Ledger, K: Ledger, O: Opening>(passes: &[Pass<C, K, O>]) -> u64
    ensures { result ≡ saturated (sum_by (λ p. p.changes) passes.now) }
{
    let mut sum = 0u64;
    for pass in passes {
        sum = sum.saturating_add(pass.changes());
    }
    sum
}

fn cuts_of<C: Ledger, K: Ledger, O: Opening>(passes: &[Pass<C, K, O>]) -> u64
    ensures { result ≡ saturated (sum_by (λ p. p.cuts) passes.now) }
{
    let mut sum = 0u64;
    for pass in passes {
        sum = sum.saturating_add(pass.cuts());
    }
    sum
}
