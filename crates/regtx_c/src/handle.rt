//! An open hive as C holds it: a struct of its own, whose fields no other code changes.
ghost use Rattle.std.specs.Prelude.{◌≡◌, true, [], ◌∷◌, IfSome, IfNone};
ghost use Rattle.std.specs.Coded.{coded_list};
ghost use Rattle.regtx_c.specs.contracts.block.Block.{the_row};
ghost use Rattle.regtx_c.specs.Held.{Maybe, has_one, first};

use crate::block::Block;
use crate::loose::Loose;
use std::alloc::Global;
use std::marker::Model;
use std::mem::replace;
use std::ptr::null_mut;

/// The block of the heap that contains a tree and a way, or none.
#[repr(C)]
#[derive(Drop)]
pub struct Held {
    at: *mut u8,
    ghost blocks: { Maybe } by { coded_list the_row.coded },
}

impl Model for Held {
    ghost use Rattle.regtx_c.specs.Held.{held};

    ghost also_owns = { λ h. held h.at h.blocks };
}

impl Held {
    // no block, whatever the pointer is
    fn none(at: *mut u8) -> Held
        ensures { result.blocks ≡ [] }
    {
        Held { at }
    }

    // the block of a box
    fn of(loose: Loose<Block, Global>) -> Held
        ensures { result.blocks ≡ loose.value ∷ [] }
    {
        let Loose { at, alloc: _ } = loose;
        Held { at: at as *mut u8 }
    }

    // the box of a block, which is there
    fn into_loose(self, alloc: Global) -> Loose<Block, Global>
        requires { has_one self.blocks ≡ true }
        ensures { first self.blocks ≡ Some result.value }
    {
        let Held { at } = self;
        Loose {
            at: at as *mut Block,
            alloc,
        }
    }
}

unsafe impl Send for Held {}

/// A hive that is open, or none. With all bytes zero it is none.
///
/// Whether there is a block is told by `full` alone: no pointer is tested.
#[repr(C)]
#[derive(Drop)]
pub struct Handle {
    full: bool,
    held: Held,
    ghost agrees: { full ≡ has_one held.blocks },
}

impl Handle {
    /// A handle with a block, or with none.
    pub(crate) fn of(block: Option<Box<Block, Global>>) -> Handle
        ensures some { IfSome block (λ block. first result.held.blocks ≡ Some block.value) }
        ensures none { IfNone block (first result.held.blocks ≡ None) }
    {
        match block {
            Some(block) => Handle {
                full: true,
                held: Held::of(Loose::of(block)),
            },
            None => {
                let at = null_mut();
                let held = Held::none(at);
                Handle { full: false, held }
            }
        }
    }

    /// The block of a handle, if it has one.
    pub(crate) fn into_box(self, alloc: Global) -> Option<Box<Block, Global>>
        ensures some { IfSome result (λ block. first self.held.blocks ≡ Some block.value) }
        ensures none { IfNone result (first self.held.blocks ≡ None) }
    {
        let Handle { full, held } = self;
        if full {
            return Some(held.into_loose(alloc).into_box());
        }
        None
    }
}

/// Takes the block out of a handle, which has none then.
pub(crate) fn take(alloc: Global, handle: &mut Handle) -> Option<Box<Block, Global>>
    ensures some { IfSome result (λ block. first handle.old.held.blocks ≡ Some block.value) }
    ensures none { IfNone result (first handle.old.held.blocks ≡ None) }
    ensures left { first handle.new.held.blocks ≡ None }
{
    replace(handle, Handle::of(None)).into_box(alloc)
}

/// Puts a block into a handle, or none. What was there is let go.
pub(crate) fn put(alloc: Global, handle: &mut Handle, block: Option<Box<Block, Global>>)
    ensures some { IfSome block (λ block. first handle.new.held.blocks ≡ Some block.value) }
    ensures none { IfNone block (first handle.new.held.blocks ≡ None) }
{
    let _ = replace(handle, Handle::of(block)).into_box(alloc);
}
