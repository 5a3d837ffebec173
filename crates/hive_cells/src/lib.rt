//! Bins and cells of hive bins data: how they tile the data, and the allocated cells by their offsets (regf
//! format: hive bins; cells).
//!
//! [`Image::open`] takes exactly the bytes that bins and cells tile, and says of all others what is wrong with them.
//! [`Image::cell`] lends the data of the allocated cell that begins at an offset, or refuses the offset. It copies
//! nothing, and each call counts one look of the [`Looks`] that it is given. [`Image::alloc`] takes a free cell if one
//! is long enough, and else adds the least bin. [`Image::free`] merges a cell with its free neighbours. Both leave
//! every other allocated cell and its data as they were. Both say which bytes they wrote, so that a caller knows which
//! pages changed. [`Image::write`], [`Image::fill`] and [`Image::shift`] write into one cell's data. Each of these
//! leaves data that bins and cells tile. A refused call changes nothing. [`Image::place_for`] and
//! [`Image::merges_from`] say ahead where a change will write. A caller that keeps these pages can put them back by
//! [`Image::restore`]. [`Image::reserve`] takes memory ahead, so that an allocation within it can't be
//! refused for want of memory. [`Image::bytes`] lends all bytes to whoever writes them to a file, by `&mut self`. Of
//! the calls that take `&self`, `cell` alone gives bytes of a cell. Offsets are counted from the start of the hive bins
//! data.
//!
//! Not promised: which free cell is taken, and how long a call takes. A look, a write and a free go over no cells. A
//! free goes back over the bits of the cell before, a word for 512 bytes of data. A search for a free cell goes over
//! bounds of groups of 128 pages. Then it goes over the bounds of one group's pages, and over the cells of a page. A
//! page without a fitting cell may have a bound that says otherwise. Such a page is looked at once, and then has its
//! exact bound.
#![tactic(auto)]

mod free_bounds;
mod image;
mod looks;
mod moves;
mod starts;
mod tiling;
mod words;

pub use image::{Image, ImageOpenError};
pub use looks::Looks;
