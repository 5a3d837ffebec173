//! The key at the end of a path.
ghost use Rattle.std.specs.Prelude.{◌≡◌, IsOk, MatchResult};
ghost use Rattle.reg_names.specs.Names.{folded_path};
ghost use Rattle.hive_cells.specs.Bins.{Cells, Shows};
ghost use Rattle.hive_lookup.specs.declared.list_kind.ListKind.TheVariants.{Subkeys};
ghost use Rattle.hive_lookup.specs.Records.{record_at};
ghost use Rattle.hive_lookup.specs.Lookups.{PathEnds, PathLeads};

use crate::errors::{PathError, refused_at};
use crate::list_kind::ListKind;
use crate::records::key_node;
use crate::search::find_listed;
use hive_cells::Image;
use reg_names::Path;
use std::alloc::Global;

/// The offset of the key at a path from the root on, whose node is at an offset.
///
/// Only the nodes on the way are read, their lists of subkeys, and the names of all subkeys in these lists. The error
/// says how many names of the path were found, and why the next one wasn't: as [`find_listed`] says it.
pub fn find_key(alloc: Global, image: &Image, root: u32, path: &Path) -> Result<u32, PathError>
    ensures { (cells : Cells) → Shows image.now.bytes cells → MatchResult result
        (λ at. PathLeads cells root (folded_path path.now) at × IsOk (record_at Subkeys cells at))
        (PathEnds cells root (folded_path path.now)) }
{
    if let Err(refusal) = key_node(image, root) {
        let error = refused_at(refusal, root);
        return Err(PathError { depth: 0, error });
    }
    let names = path.names();
    let mut at = root;
    for depth in 0..names.len() {
        at = match find_listed(alloc, image, ListKind::Subkeys, at, &names[depth]) {
            Ok(subkey) => subkey,
            Err(error) => return Err(PathError { depth, error }),
        };
    }
    Ok(at)
}
