//! Which prefixes may stand beside each other.
ghost use Rattle.std.specs.Prelude.{◌≡◌, map, IfOk};
ghost use Rattle.std.specs.List.{list_all};
ghost use Rattle.reg_prefixes.specs.Words.{meaning_of, fits_by, are_distinct, are_apart, are_pairwise, leads_to_a_root};

use crate::matching::begins;
use crate::prefix::Prefix;
use crate::units::wide;
use std::alloc::{AllocError, Global};

/// How prefixes stand beside each other.
#[derive(Clone, Copy)]
pub(crate) enum Rule {
    /// No two are the same.
    Distinct,
    /// None begins another.
    Apart,
}

/// Whether each two of some prefixes may stand beside each other.
pub(crate) fn are_fit(alloc: Global, rule: Rule, prefixes: &[Prefix]) -> Result<bool, AllocError>
    ensures { IfOk result (λ fit.
        fit ≡ are_pairwise (fits_by rule) (map meaning_of prefixes.now)) }
{
    let mut rest = prefixes;
    while let Some((prefix, others)) = rest.split_first() {
        if !fits_all(alloc, rule, prefix, others)? {
            return Ok(false);
        }
        rest = others;
    }
    Ok(true)
}

// whether a prefix may stand beside each of some others
fn fits_all(
    alloc: Global,
    rule: Rule,
    prefix: &Prefix,
    others: &[Prefix],
) -> Result<bool, AllocError>
    ensures { IfOk result (λ fit.
        fit ≡ list_all (fits_by rule (meaning_of prefix.now)) (map meaning_of others.now)) }
{
    let mut rest = others;
    while let Some((other, more)) = rest.split_first() {
        if !fits(alloc, rule, prefix, other)? {
            return Ok(false);
        }
        rest = more;
    }
    Ok(true)
}

// whether two prefixes may stand beside each other
fn fits(alloc: Global, rule: Rule, prefix: &Prefix, other: &Prefix) -> Result<bool, AllocError>
    ensures { IfOk result (λ fit. fit ≡ fits_by rule (meaning_of prefix.now) (meaning_of other.now)) }
{
    match rule {
        Rule::Distinct => are_distinct(alloc, prefix, other),
        Rule::Apart => are_apart(alloc, prefix, other),
    }
}

// whether two prefixes aren't the same
fn are_distinct(alloc: Global, prefix: &Prefix, other: &Prefix) -> Result<bool, AllocError>
    ensures { IfOk result (λ fit. fit ≡ are_distinct (meaning_of prefix.now) (meaning_of other.now)) }
{
    let text = wide(alloc, &other.text)?;
    Ok(!(prefix.text.len() == text.len() && begins(&prefix.text, &text)))
}

// whether neither of two prefixes begins the other
fn are_apart(alloc: Global, prefix: &Prefix, other: &Prefix) -> Result<bool, AllocError>
    ensures { IfOk result (λ fit. fit ≡ are_apart (meaning_of prefix.now) (meaning_of other.now)) }
{
    let text = wide(alloc, &prefix.text)?;
    let other_text = wide(alloc, &other.text)?;
    Ok(!begins(&prefix.text, &other_text) && !begins(&other.text, &text))
}

/// Whether all prefixes lead to roots.
pub(crate) fn lead_to_roots(prefixes: &[Prefix]) -> bool
    ensures { result ≡ list_all leads_to_a_root (map meaning_of prefixes.now) }
{
    let mut rest = prefixes;
    while let Some((prefix, more)) = rest.split_first() {
        if !prefix.key.is_empty() {
            return false;
        }
        rest = more;
    }
    true
}
