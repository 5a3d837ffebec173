//! What an operation claims.
ghost use Rattle.std.specs.Prelude.{◌≡◌, ◌==◌, IsTrue, ◌↔◌, length};
ghost use Rattle.conflicts.specs.Skeleton.{Conflict, same_key, begins_key};
ghost use Rattle.conflicts.specs.Claims.{claim_of, is_shape, meets, reaches, same_claim};

use reg_names::Path;
use reg_tree::Op;
use std::marker::Model;

/// How a key is claimed.
#[derive(Clone, Copy)]
pub enum ClaimKind {
    /// The key is made or deleted: no other transaction may touch what is at or below it.
    Shape,
    /// A value of the key is changed.
    Hold,
}

/// A key that an operation claims, and how. It borrows the path of the operation.
#[derive(Drop)]
pub struct Claim<'a> {
    pub(crate) hive: u8,
    pub(crate) path: &'a Path,
    pub(crate) kind: ClaimKind,
}

impl<'a> Model for Claim<'a> {
    ghost use Rattle.conflicts.specs.Skeleton as law;

    ghost Value = { law.Claim };

    ghost use Rattle.conflicts.specs.Claims.{kind_of, key_at};

    ghost view = { λ inside.
        record { kind = kind_of inside.kind; key = key_at inside.hive inside.path.now } };
}

/// The claim of an operation. Takes no memory.
pub fn claims(op: &Op) -> Claim<'_>
    ensures { result ≡ claim_of op.now }
{
    let kind = match op {
        Op::CreateKey { .. } | Op::DeleteKey { .. } => ClaimKind::Shape,
        Op::SetValue { .. } | Op::DeleteValue { .. } => ClaimKind::Hold,
    };
    Claim {
        hive: op.hive(),
        path: op.path(),
        kind,
    }
}

/// Whether two claims conflict: their keys are the same, or one is a Shape and the other's key is below its key. Takes
/// no memory.
pub fn conflict(one: &Claim, other: &Claim) -> bool
    ensures exactly { IsTrue result ↔ Conflict one.now other.now }
    ensures test { result ≡ meets one.now other.now }
{
    reaches(one, other) || reaches(other, one)
}

// whether the other's key is its own, or is below it and it is a Shape
fn reaches(one: &Claim, other: &Claim) -> bool
    ensures { result ≡ reaches one.now other.now }
{
    (is_shape(one) || is_as_deep(one, other)) && begins(one, other)
}

// whether as many names lead to the keys of both; it answers without comparing names
fn is_as_deep(one: &Claim, other: &Claim) -> bool
    ensures { result ≡ (length one.now.key.path == length other.now.key.path) }
{
    one.path.names().len() == other.path.names().len()
}

// whether the other's key is its own or is below it
fn begins(one: &Claim, other: &Claim) -> bool
    ensures { result ≡ begins_key one.now.key other.now.key }
{
    one.hive == other.hive && one.path.begins(other.path)
}

fn is_shape(claim: &Claim) -> bool
    ensures { result ≡ is_shape claim.now.kind }
{
    matches!(claim.kind, ClaimKind::Shape)
}

// whether two claims are the same
pub(crate) fn same_claim(one: &Claim, other: &Claim) -> bool
    ensures { result ≡ same_claim one.now other.now }
{
    match (one.kind, other.kind) {
        (ClaimKind::Shape, ClaimKind::Shape) | (ClaimKind::Hold, ClaimKind::Hold) => same_key(
            one, other,
        ),
        _ => false,
    }
}

// whether two claims are of one key
fn same_key(one: &Claim, other: &Claim) -> bool
    ensures { result ≡ same_key one.now.key other.now.key }
{
    begins(one, other) && begins(other, one)
}
