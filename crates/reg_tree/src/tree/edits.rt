//! What an operation does at the end of its walk: it is judged by the key that it finds there, and edits that key.
ghost use Rattle.std.specs.Prelude.{◌≡◌, ◌⊎◌, List, ℕ, Ok, Err, IfOk, IfErr, IfSome, MatchOption, OnOk, [], ◌∷◌, take, drop, length, ◌-◌};
ghost use Rattle.reg_names.specs.Names.{folded, folded_path};
ghost use Rattle.reg_tree_parts.specs.ValueEdits.{values_with, values_without};
ghost use Rattle.reg_tree_parts.specs.Nodes.{root_name, IsNode};
ghost use Rattle.reg_tree.specs.Edits.{walk_of, judged_missing, judged_found, judged_last, judged_data, judged_value, IsBranched, LacksSubkey, IsRewritten, counted, makes, refuses};
ghost use Rattle.reg_tree.specs.Encodable.{NamesAreValid};
ghost use Rattle.reg_tree.specs.Stamps.{touched_path_of};

use super::NOT_DELETABLE;
use crate::op::{Legality, Op};
use refusals::Refusal;
use refusals::limits::{MOST_NEW_LEVELS, MOST_VALUE_BYTES};
use reg_names::{Name, Path};
use reg_tree_parts::{Data, Node, NodeEdit};
use std::alloc::Global;

impl NodeEdit for Op {
    ghost Makes = { makes };

    ghost Refuses = { refuses };

    #[inline(never)] // so that each level takes little stack
    fn edit(
        &self,
        alloc: Global,
        node: &Node,
        missing: &[Name],
        moment: u64,
    ) -> Result<Option<Node>, Refusal> {
        match self {
            Op::CreateKey { .. } => with_branch(alloc, node, missing, moment),
            Op::DeleteKey { path, .. } => {
                let new = without_subkey(alloc, node, missing, path, moment)?;
                Ok(Some(new))
            }
            Op::SetValue {
                name,
                kind,
                data,
                ..
            } => {
                let new = with_value(alloc, node, missing, name.name(), *kind, data, moment)?;
                Ok(Some(new))
            }
            Op::DeleteValue { name, .. } => {
                let new = without_value(alloc, node, missing, name.name(), moment)?;
                Ok(Some(new))
            }
        }
    }
}

impl Op {
    // the names that the operation walks along
    pub(super) fn way(&self) -> &[Name]
        ensures { result.now ≡ walk_of self.now }
    {
        match self {
            Op::DeleteKey { path, .. } => parent_of(path.names()),
            Op::CreateKey { path, .. } | Op::SetValue { path, .. } | Op::DeleteValue { path, .. } =>
                path.names(),
        }
    }

    /// The names of the path of the key that the operation writes beside those that it makes: the last key on its way
    /// that was there. `made` is how many keys it made, as [`Trees::write_counted`](crate::Trees::write_counted)
    /// answers; `None` means none.
    pub fn touched_path(&self, made: Option<usize>) -> &[Name]
        ensures { folded_path result.now ≡ touched_path_of self.now made }
    {
        let way = self.way();
        let made = made.unwrap_or(0);
        &way[..way.len().saturating_sub(made)]
    }

    // how many keys it made, if this many names of its way were missing
    pub(super) fn counted(&self, missing: usize) -> Option<usize>
        ensures { result ≡ counted self.now missing }
    {
        match self {
            Op::CreateKey { .. } => Some(missing),
            Op::DeleteKey { .. } | Op::SetValue { .. } | Op::DeleteValue { .. } => None,
        }
    }

    // a hive file can encode its names
    pub(super) fn names_are_valid(&self)
        ensures { NamesAreValid self.now }
    {
        match self {
            Op::CreateKey { path, .. } | Op::DeleteKey { path, .. } => {
                let _ = path.names(); // for the prover
            }
            Op::SetValue { path, name, .. } | Op::DeleteValue { path, name, .. } => {
                let _ = path.names(); // for the prover
                let _ = name.name(); // for the prover
            }
        }
    }
}

// the names but the last
fn parent_of(names: &[Name]) -> &[Name]
    ensures { result.now ≡ take (length names.now - 1) names.now }
{
    match names.split_last() {
        Some((_, parent)) => parent,
        None => names,
    }
}

// the key with new ones of these names below it, one below the other; nothing if there are no names
fn with_branch(
    alloc: Global,
    node: &Node,
    names: &[Name],
    moment: u64,
) -> Result<Option<Node>, Refusal>
    ensures judged { IfOk result (λ made. MatchOption made
        (judged_missing names.now ≡ Ok Legality.Opened)
        (λ _. judged_missing names.now ≡ Ok Legality.Legal)) }
    ensures edits { IfOk result (λ made. IfSome made (IsBranched node.now names.now moment)) }
    ensures refused { IfErr result (λ why.
        (judged_missing names.now ≡ Err why) ⊎ (why ≡ Refusal.NoMemory)) }
    ensures named { IfOk result (λ made. IfSome made (λ new. root_name new ≡ root_name node.now)) }
    ensures node { IfOk result (λ made. IfSome made IsNode) }
{
    let Some((name, further)) = names.split_first() else {
        return Ok(None);
    };
    if names.len() > MOST_NEW_LEVELS {
        return Err(Refusal::TooDeep);
    }
    let key = node.key();
    let branch = Node::branch(alloc, name, further, key.descriptor(), moment)?;
    let new = node.with_new_child(alloc, key.with_time(moment)?, branch)?;
    Ok(Some(new))
}

// the key without the subkey that is last on a path, if it may be deleted
fn without_subkey(
    alloc: Global,
    node: &Node,
    missing: &[Name],
    path: &Path,
    moment: u64,
) -> Result<Node, Refusal>
    ensures legal { IfOk result (λ _.
        judged_found missing.now (judged_last node.now (drop (length path.now - 1) path.now))
        ≡ Ok Legality.Legal) }
    ensures edits { IfOk result
        (LacksSubkey node.now (drop (length path.now - 1) path.now) moment) }
    ensures refused { IfErr result (λ why.
        (judged_found missing.now (judged_last node.now (drop (length path.now - 1) path.now))
        ≡ Err why)
        ⊎ (why ≡ Refusal.NoMemory)) }
    ensures named { IfOk result (λ new. root_name new ≡ root_name node.now) }
    ensures node { IfOk result IsNode }
{
    if !missing.is_empty() {
        return Err(Refusal::NotFound);
    }
    let Some((name, _)) = path.names().split_last() else {
        return Err(Refusal::Fixed);
    };
    check_deletable(node, name)?;
    let key = node.key().with_time(moment)?;
    let new = node.without_child(alloc, key, name)?;
    Ok(new)
}

// refuses the subkey of this name that may not be deleted
fn check_deletable(node: &Node, name: &Name) -> Result<(), Refusal>
    ensures legal { OnOk result
        (judged_last node.now (name.now ∷ []) ≡ Ok Legality.Legal) }
    ensures refused { IfErr result (λ why. judged_last node.now (name.now ∷ []) ≡ Err why) }
{
    let Some(child) = node.child(name) else {
        return Err(Refusal::NotFound);
    };
    if child.key().flags() & NOT_DELETABLE != 0 {
        return Err(Refusal::Fixed);
    }
    if child.subkey_count() != 0 {
        return Err(Refusal::HasSubkeys);
    }
    Ok(())
}

// the key with a value written, if the key is there and the data are not too long
fn with_value(
    alloc: Global,
    node: &Node,
    missing: &[Name],
    name: &Name,
    kind: u32,
    data: &Data,
    moment: u64,
) -> Result<Node, Refusal>
    ensures legal { IfOk result (λ _.
        judged_found missing.now (judged_data data.now) ≡ Ok Legality.Legal) }
    ensures edits { IfOk result (IsRewritten node.now
        (λ row. record row { values = values_with row.values name.now kind data.now }) moment) }
    ensures refused { IfErr result (λ why.
        (judged_found missing.now (judged_data data.now) ≡ Err why) ⊎ (why ≡ Refusal.NoMemory)) }
    ensures named { IfOk result (λ new. root_name new ≡ root_name node.now) }
    ensures node { IfOk result IsNode }
{
    if !missing.is_empty() {
        return Err(Refusal::NotFound);
    }
    if data.bytes().len() > MOST_VALUE_BYTES {
        return Err(Refusal::TooLarge);
    }
    let key = node.key();
    let values = key.values().with(alloc, name, kind, data)?;
    let new = node.with_key(key.with_values(values, moment)?)?;
    Ok(new)
}

// the key without a value, if both are there
fn without_value(
    alloc: Global,
    node: &Node,
    missing: &[Name],
    name: &Name,
    moment: u64,
) -> Result<Node, Refusal>
    ensures legal { IfOk result (λ _.
        judged_found missing.now (judged_value node.now name.now) ≡ Ok Legality.Legal) }
    ensures edits { IfOk result (IsRewritten node.now
        (λ row. record row { values = values_without row.values name.now }) moment) }
    ensures refused { IfErr result (λ why.
        (judged_found missing.now (judged_value node.now name.now) ≡ Err why)
        ⊎ (why ≡ Refusal.NoMemory)) }
    ensures named { IfOk result (λ new. root_name new ≡ root_name node.now) }
    ensures node { IfOk result IsNode }
{
    if !missing.is_empty() {
        return Err(Refusal::NotFound);
    }
    let key = node.key();
    if key.values().get(name).is_none() {
        return Err(Refusal::NotFound);
    }
    let values = key.values().without(alloc, name)?;
    let new = node.with_key(key.with_values(values, moment)?)?;
    Ok(new)
}
