//! Which keys lie at a path or below it.
ghost use Rattle.std.specs.Prelude.{◌≡◌};
ghost use Rattle.reg_names.specs.Names.{folded_path};
ghost use Rattle.reg_tree_parts.specs.Nodes.{begins_path};
ghost use Rattle.key_walk.specs.KeyPaths.{names_on};
ghost use Rattle.salvage_report.specs.Told.{same_path};

use key_walk::KeyPath;
use reg_names::Name;

/// Whether the names that lead to a key are these, or these and more.
pub(crate) fn begins(names: &[Name], path: &KeyPath<'_>) -> bool
    ensures { result ≡ begins_path (folded_path names.now) (folded_path (names_on path.now)) }
{
    match path {
        KeyPath::Root => names.is_empty(),
        KeyPath::Below(above, _) => begins(names, above) || leads_to(names, path),
    }
}

// whether these names lead to the key
fn leads_to(names: &[Name], path: &KeyPath<'_>) -> bool
    ensures { result ≡ same_path (folded_path names.now) (folded_path (names_on path.now)) }
{
    match path {
        KeyPath::Root => names.is_empty(),
        KeyPath::Below(above, name) => match names.split_last() {
            Some((last, front)) => **name == *last && leads_to(front, above),
            None => false,
        },
    }
}

/// Whether the names that lead to a key are these, or the first of them.
pub(crate) fn is_above(names: &[Name], path: &KeyPath<'_>) -> bool
    ensures { result ≡ begins_path (folded_path (names_on path.now)) (folded_path names.now) }
{
    if leads_to(names, path) {
        return true;
    }
    match names.split_last() {
        Some((_, front)) => is_above(front, path),
        None => false,
    }
}
