//! Why an image isn't walked, and where in it that stands.
ghost use Rattle.std.specs.Prelude.{◌≡◌, IfOk};
ghost use Rattle.key_walk.specs.KeyPaths.{names_on};
ghost use Rattle.hive_walk.specs.declared.errors.ImageError.TheVariants.{NoMemory};
ghost use Rattle.hive_walk.specs.declared.errors.WalkError.TheVariants.{Image};
ghost use Rattle.hive_walk.specs.Errors.{IsFaultAt};

use key_walk::KeyPath;
use refusals::Refusal;
use reg_names::Name;
use std::alloc::{AllocError, AllocFailed, Global};

/// A fault of an image, and the key at which it stands.
#[derive(Drop)]
pub struct Fault {
    /// The fault: `HiveDamaged` of hive 0, `Unsupported`, or `TooLarge` for a key that lies too deep.
    pub refusal: Refusal,
    /// The offset of the key's cell in the bins data. Of two subkeys with one name, or of one without a name, it is
    /// their parent's; of a security cell that is also another record, the root's.
    pub at: u32,
    /// The names that lead to the key, as they are spelled. The key's own name is missing if the key can't be read.
    pub path: Vec<Name>,
}

/// Why an image gives no keys.
#[derive(Drop)]
pub enum ImageError {
    /// Memory was asked for and not given.
    NoMemory,
    /// The image encodes no tree, or a key in it lies too deep.
    Fault(Fault),
}

impl From<AllocError> for ImageError {
    ghost from_gives = { λ _ error. error ≡ NoMemory };

    fn from(_error: AllocError) -> ImageError {
        ImageError::NoMemory
    }
}

impl<T: Drop> From<AllocFailed<T>> for ImageError {
    ghost from_gives = { λ _ error. error ≡ NoMemory };

    fn from(_error: AllocFailed<T>) -> ImageError {
        ImageError::NoMemory
    }
}

/// Why a walk ended early.
#[derive(Drop)]
pub enum WalkError<E> {
    /// The image gives no keys, or no more.
    Image(ImageError),
    /// The sink refused a key, for this reason.
    Sink(E),
}

impl<E> From<ImageError> for WalkError<E> {
    ghost from_gives = { λ image error. error ≡ Image image };

    fn from(error: ImageError) -> WalkError<E> {
        WalkError::Image(error)
    }
}

// the names on a way
fn collected(alloc: Global, path: &KeyPath<'_>) -> Result<Vec<Name>, AllocError>
    ensures { IfOk result (λ names. names.items ≡ names_on path.now) }
{
    match path {
        KeyPath::Root => Ok(Vec::new(alloc)),
        KeyPath::Below(above, name) => {
            let mut names = collected(alloc, above)?;
            let name = (*name).clone()?;
            names.push(name)?;
            Ok(names)
        }
    }
}

/// The refusal of the key at an offset, to which this way leads.
#[inline(never)] // so that each level takes little stack
pub(crate) fn refused_at(alloc: Global, path: &KeyPath<'_>, at: u32, refusal: Refusal) -> ImageError
    ensures { IsFaultAt (names_on path.now) at refusal result }
{
    if refusal == Refusal::NoMemory {
        return ImageError::NoMemory;
    }
    match collected(alloc, path) {
        Ok(path) => ImageError::Fault(Fault { refusal, at, path }),
        Err(_) => ImageError::NoMemory,
    }
}
