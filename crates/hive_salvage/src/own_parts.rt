//! What is a key's own beside its lists: class and descriptor.
ghost use Rattle.std.specs.Prelude.{◌≡◌, ◌≤◌, ◌*◌, [], length, IfOk};
ghost use Rattle.hive_tree_model.specs.Loads.{CellMarks};
ghost use Rattle.hive_records.specs.KeyNodes.{class_at, descriptor_at};
ghost use Rattle.hive_load_parts.specs.CellReads.{marks_of};
ghost use Rattle.hive_load_parts.specs.Descriptors.{AreDescriptors};
ghost use Rattle.hive_salvage.specs.Events.{Tells, lost, loss_of};
ghost use Rattle.hive_salvage.specs.Readings.{KeptOrLost};
ghost use Rattle.key_walk.specs.KeyPaths.{names_on};

use crate::errors::StepError;
use crate::loss::Part;
use crate::sink::{SalvageSink, tell};
use hive_cells::{Image, Looks};
use hive_load_parts::{Descriptors, Flags, class, descriptor};
use key_walk::KeyPath;
use reg_tree_parts::{Data, Descriptor};
use std::alloc::Global;

/// The class of a key, whose length and offset its node says; none if it isn't read, which is told.
pub(crate) fn kept_class<S: SalvageSink>(
    alloc: Global,
    image: &Image,
    seen: &mut Flags,
    sink: &mut S,
    path: &KeyPath<'_>,
    len: u16,
    at: u32,
) -> Result<Data, StepError<S::Error>>
    requires covers { length image.now.bytes ≤ 8 * length seen.old }
    ensures covers { length seen.new ≡ length seen.old }
    ensures kept { IfOk result (λ its_class. Tells S.Took sink.old sink.new image.now.bytes (λ cells told.
        KeptOrLost (class_at len at) [] (λ why. lost (names_on path.now) (loss_of Part.Class at why)) cells
        (marks_of seen.old) (marks_of seen.new) its_class told)) }
{
    let mut looks = Looks::new();
    let why = match class(alloc, image, seen, &mut looks, len, at) {
        Ok(class) => return Ok(class),
        Err(why) => why,
    };
    tell(sink, path, Part::Class, at, why)?;
    Ok(Data::new(alloc, &[])?)
}

/// The security descriptor of a key, whose offset its node says; none if it isn't read, which is told.
pub(crate) fn kept_descriptor<S: SalvageSink>(
    alloc: Global,
    image: &Image,
    known: &mut Descriptors,
    sink: &mut S,
    path: &KeyPath<'_>,
    at: u32,
) -> Result<Descriptor, StepError<S::Error>>
    requires known { AreDescriptors image.now.bytes known.old }
    ensures known { AreDescriptors image.now.bytes known.new }
    ensures kept { IfOk result (λ its. Tells S.Took sink.old sink.new image.now.bytes (λ cells told.
        (marks : CellMarks) → KeptOrLost (descriptor_at at) [] (λ why. lost (names_on path.now) (loss_of Part.Descriptor at why))
        cells marks marks its told)) }
{
    let mut looks = Looks::new();
    let why = match descriptor(alloc, image, &mut looks, known, at) {
        Ok(descriptor) => return Ok(descriptor),
        Err(why) => why,
    };
    tell(sink, path, Part::Descriptor, at, why)?;
    Ok(Descriptor::new(alloc, &[])?)
}
