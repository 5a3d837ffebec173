//! An open cursor as C holds it.
ghost use Rattle.std.specs.Prelude.{◌≡◌, Some, None, IfSome, IfNone};
ghost use Rattle.regtx_c.specs.Held.{first};

use crate::block::Block;
use crate::handle::Handle;
use std::alloc::Global;
use std::mem::replace;

/// A cursor that is open, or none. With all bytes zero it is none.
///
/// Its block is kept as that of a hive.
#[repr(C)]
#[derive(Drop)]
pub struct CursorHandle {
    handle: Handle,
}

impl CursorHandle {
    fn of(block: Option<Box<Block, Global>>) -> CursorHandle
        ensures some { IfSome block (λ block. first result.handle.held.blocks ≡ Some block.value) }
        ensures none { IfNone block (first result.handle.held.blocks ≡ None) }
    {
        let handle = Handle::of(block);
        CursorHandle { handle }
    }

    fn into_box(self, alloc: Global) -> Option<Box<Block, Global>>
        ensures some { IfSome result (λ block. first self.handle.held.blocks ≡ Some block.value) }
        ensures none { IfNone result (first self.handle.held.blocks ≡ None) }
    {
        let CursorHandle { handle } = self;
        handle.into_box(alloc)
    }
}

/// Takes the block out of a cursor, which has none then.
pub(crate) fn take_cursor(alloc: Global, cursor: &mut CursorHandle) -> Option<Box<Block, Global>>
    ensures some { IfSome result (λ block. first cursor.old.handle.held.blocks ≡ Some block.value) }
    ensures none { IfNone result (first cursor.old.handle.held.blocks ≡ None) }
    ensures left { first cursor.new.handle.held.blocks ≡ None }
{
    replace(cursor, CursorHandle::of(None)).into_box(alloc)
}

/// Puts a block into a cursor, or none. What was there is let go.
pub(crate) fn put_cursor(
    alloc: Global,
    cursor: &mut CursorHandle,
    block: Option<Box<Block, Global>>,
)
    ensures some { IfSome block (λ block. first cursor.new.handle.held.blocks ≡ Some block.value) }
    ensures none { IfNone block (first cursor.new.handle.held.blocks ≡ None) }
{
    let _ = replace(cursor, CursorHandle::of(block)).into_box(alloc);
}
