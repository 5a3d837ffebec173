//! The prefixes of all hives.
ghost use Rattle.std.specs.Prelude.{◌≡◌, ◌++◌, ◌⊎◌, map, IfOk, IfErr, OnOk, Some, None};
ghost use Rattle.std.specs.Option.{option_map, option_copied};
ghost use Rattle.reg_prefixes.specs.Places.{place_in, longest_in, is_longer, leads_to_root, shown_in};
ghost use Rattle.reg_prefixes.specs.Words.{meaning_of, word_meanings, default_meanings, key_prefixes, hive_prefixes};
ghost use Rattle.reg_prefixes.specs.declared.prefix.WordError.TheVariants.{NoMemory, NotUnderstood};

use crate::matching::begins;
use crate::prefix::{Prefix, WordError};
use crate::rule::{Rule, are_fit, lead_to_roots};
use crate::units::joined;
use refusals::limits::MOST_HIVES;
use std::alloc::{AllocError, Global};
use std::marker::Model;

/// The prefixes of all hives, of which no two are the same.
#[derive(Drop)]
pub struct Prefixes {
    list: Vec<Prefix>,
}

impl Model for Prefixes {
    ghost use Rattle.std.specs.Prelude.{List};
    ghost use Rattle.reg_prefixes.specs.declared.prefix.Prefix.{Prefix};

    ghost Value = { List Prefix };

    ghost view = { λ inside. inside.list.items };
}

/// Where a path of a registration file leads.
#[derive(Drop)]
pub struct Place {
    /// The hive's number.
    pub hive: u8,
    /// The text of the path in the hive.
    pub path: Vec<u16>,
}

impl Prefixes {
    /// The prefixes of these words, `PREFIX=HIVE` or `PREFIX=HIVE:PATH` each, and after them `HIVE0` to `HIVE15`.
    ///
    /// Refused with `NotUnderstood` if a word is none, or if two prefixes are the same, small letters taken as large
    /// ones; and with `NoMemory`.
    pub fn new(alloc: Global, words: &[&str]) -> Result<Prefixes, WordError>
        ensures made { IfOk result (λ made. key_prefixes words.now ≡ Some (map meaning_of made)) }
        ensures refused { IfErr result (λ error. (error ≡ NoMemory)
            ⊎ ((error ≡ NotUnderstood) × (key_prefixes words.now ≡ None))) }
    {
        let list = all_prefixes(alloc, words)?;
        if !are_fit(alloc, Rule::Distinct, &list)? {
            return Err(WordError::NotUnderstood);
        }
        Ok(Prefixes { list })
    }

    /// The prefixes of these words, as [`Prefixes::new`] has them, for what shows hives by them: what is shown leads back
    /// to the same keys.
    ///
    /// Refused with `NotUnderstood` if a word is none, if one prefix begins another, or if one leads to another key than
    /// the root of its hive; and with `NoMemory`.
    pub fn of_hives(alloc: Global, words: &[&str]) -> Result<Prefixes, WordError>
        ensures made { IfOk result (λ made. hive_prefixes words.now ≡ Some (map meaning_of made)) }
        ensures refused { IfErr result (λ error. (error ≡ NoMemory)
            ⊎ ((error ≡ NotUnderstood) × (hive_prefixes words.now ≡ None))) }
    {
        let list = all_prefixes(alloc, words)?;
        if !are_fit(alloc, Rule::Apart, &list)? || !lead_to_roots(&list) {
            return Err(WordError::NotUnderstood);
        }
        Ok(Prefixes { list })
    }

    /// The key that a path's text leads to, by the longest prefix that it begins with: the hive, and the path of the
    /// prefix's key with the rest of the text behind it. None if no prefix fits.
    pub fn place(&self, alloc: Global, text: &[u16]) -> Result<Option<Place>, AllocError>
        ensures { IfOk result (λ found.
            option_map (λ place. (place.hive, place.path.items)) found ≡ place_in self.now text.now) }
    {
        let Some(prefix) = longest(&self.list, text) else {
            return Ok(None);
        };
        let rest = text.get(prefix.text.len() + 1..).unwrap_or(&[]);
        let path = joined(alloc, &prefix.key, rest)?;
        Ok(Some(Place {
            hive: prefix.hive,
            path,
        }))
    }

    /// The prefix by which a hive is shown: the first one that leads to its root. None if no hive has this number.
    pub fn shown(&self, hive: u8) -> Option<&[u8]>
        ensures { option_map (λ text. text.now) result ≡ shown_in self.now hive }
    {
        for prefix in &self.list {
            if leads_to_root(prefix, hive) {
                return Some(&prefix.text);
            }
        }
        None
    }
}

// whether a prefix leads to the root of a hive
fn leads_to_root(prefix: &Prefix, hive: u8) -> bool
    ensures { result ≡ leads_to_root hive prefix.now }
{
    prefix.hive == hive && prefix.key.is_empty()
}

// the longest prefix that a text begins with
fn longest<'a>(prefixes: &'a [Prefix], text: &[u16]) -> Option<&'a Prefix>
    ensures { option_copied result ≡ longest_in prefixes.now text.now }
{
    let mut found = None;
    for prefix in prefixes {
        if begins(&prefix.text, text) && is_longer(prefix, found) {
            found = Some(prefix);
        }
    }
    found
}

// whether a prefix is longer than another one, if there is another
fn is_longer(prefix: &Prefix, other: Option<&Prefix>) -> bool
    ensures { result ≡ is_longer prefix.now (option_copied other.entry) }
{
    match other {
        Some(other) => other.text.len() < prefix.text.len(),
        None => true,
    }
}

// the prefixes of words, and `HIVE0` to `HIVE15`
fn all_prefixes(alloc: Global, words: &[&str]) -> Result<Vec<Prefix>, WordError>
    ensures made { IfOk result (λ list. option_map (λ meanings. meanings ++ default_meanings)
        (word_meanings words.now) ≡ Some (map meaning_of list.items)) }
    ensures refused { IfErr result (λ error. (error ≡ NoMemory)
        ⊎ ((error ≡ NotUnderstood) × (word_meanings words.now ≡ None))) }
{
    let mut list = word_prefixes(alloc, words)?;
    push_defaults(alloc, &mut list)?;
    Ok(list)
}

// the prefixes of words
fn word_prefixes(alloc: Global, words: &[&str]) -> Result<Vec<Prefix>, WordError>
    ensures made { IfOk result (λ list. word_meanings words.now ≡ Some (map meaning_of list.items)) }
    ensures refused { IfErr result (λ error. (error ≡ NoMemory)
        ⊎ ((error ≡ NotUnderstood) × (word_meanings words.now ≡ None))) }
{
    let mut list = Vec::new(alloc);
    for word in words {
        list.push(Prefix::parse(alloc, word)?)?;
    }
    Ok(list)
}

// `HIVE0` to `HIVE15`
fn push_defaults(alloc: Global, list: &mut Vec<Prefix>) -> Result<(), AllocError>
    ensures { OnOk result (map meaning_of list.new.items
        ≡ map meaning_of list.old.items ++ default_meanings) }
{
    for hive in 0..MOST_HIVES as u8 {
        list.push(Prefix::of_hive(alloc, hive)?)?;
    }
    Ok(())
}
