//! A walk over the keys of a hive's image, without a tree of them.
//!
//! [`walk_hive`] judges an image first: key by key it reads what [`hive_load::load`] would read, and keeps no key. Then
//! it walks the image and hands each key to a [`KeySink`], in the order of folded paths, with the names that lead to
//! it. So a sink takes nothing of an image that encodes no tree. Beside the image a walk has a flag for each 8 bytes of
//! it, the lists of subkeys on the way, and one key.
#![tactic(auto)]

mod errors;
mod fields;
mod judgement;
pub mod laws;
mod siblings;
mod sound_image;
mod walk;

pub use crate::errors::{Fault, ImageError, WalkError};
pub use crate::sound_image::{SoundImage, walk_hive};
