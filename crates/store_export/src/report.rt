//! What is refused of an export, and how it is told.
ghost use Rattle.std.specs.Prelude.{◌≡◌, IfOk};
ghost use Rattle.store_export.specs.Reports.{IsTold};
ghost use Rattle.store_export.specs.declared.report.ExportError.TheVariants.{Refused};
ghost use Rattle.store_export.specs.HiveExports.{lookup_refusal};
ghost use Rattle.store_export.specs.HivePrints.{image_refusal};

use hive_lookup::LookupError;
use hive_walk::ImageError;
use refusals::Refusal;
use reply_lines::Status;
use std::alloc::{AllocError, AllocFailed};
use std::io::{self, Write};

/// Why an export ended early.
#[derive(Debug, Drop)]
pub enum ExportError {
    /// It is refused, and nothing was printed.
    Refused(Refusal),
    /// The file can't be read, or read on. Nothing was printed.
    CannotRead,
    /// A write failed.
    Write(io::Error),
}

impl From<io::Error> for ExportError {
    ghost use Rattle.store_export.specs.declared.report.ExportError.TheVariants.{Write};

    ghost from_gives = { λ error made. made ≡ Write error };

    fn from(error: io::Error) -> ExportError {
        ExportError::Write(error)
    }
}

impl From<Refusal> for ExportError {
    fn from(refusal: Refusal) -> ExportError {
        ExportError::Refused(refusal)
    }
}

impl From<AllocError> for ExportError {
    ghost use Rattle.refusals.specs.declared.refusal.Refusal.TheVariants.{NoMemory};
    ghost use Rattle.store_export.specs.declared.report.ExportError.TheVariants.{Refused};

    ghost from_gives = { λ _ made. made ≡ Refused NoMemory };

    fn from(_: AllocError) -> ExportError {
        ExportError::Refused(Refusal::NoMemory)
    }
}

impl<T: Drop> From<AllocFailed<T>> for ExportError {
    ghost use Rattle.refusals.specs.declared.refusal.Refusal.TheVariants.{NoMemory};
    ghost use Rattle.store_export.specs.declared.report.ExportError.TheVariants.{Refused};

    ghost from_gives = { λ _ made. made ≡ Refused NoMemory };

    fn from(_: AllocFailed<T>) -> ExportError {
        ExportError::Refused(Refusal::NoMemory)
    }
}

impl ExportError {
    // why what has a name isn't found
    pub(crate) fn of_lookup(error: LookupError) -> ExportError
        ensures { result ≡ Refused (lookup_refusal error) }
    {
        match error {
            LookupError::NoMemory => ExportError::Refused(Refusal::NoMemory),
            LookupError::NotFound => ExportError::Refused(Refusal::NotFound),
            LookupError::Damaged { refusal, .. } => ExportError::Refused(refusal),
        }
    }

    // why an image is refused
    pub(crate) fn of_image(error: ImageError) -> ExportError
        ensures { result ≡ image_refusal error }
    {
        match error {
            ImageError::NoMemory => ExportError::Refused(Refusal::NoMemory),
            ImageError::Fault(fault) => ExportError::Refused(fault.refusal),
        }
    }
}

impl From<reg_export::RegFileError> for ExportError {
    ghost use Rattle.store_export.specs.Reports.{IsFileError};

    ghost from_gives = { λ error made. IsFileError error made };

    fn from(error: reg_export::RegFileError) -> ExportError {
        match error {
            reg_export::RegFileError::BadName => ExportError::Refused(Refusal::BadName),
            reg_export::RegFileError::Write(error) => ExportError::Write(error),
        }
    }
}

/// The status of what was printed. A refusal is printed, as a line.
pub(crate) fn reported<W: Write>(
    writer: &mut W,
    printed: Result<(), ExportError>,
) -> Result<Status, ExportError>
    ensures { IfOk result (λ status. IsTold printed (W.contents writer.old) (W.contents writer.new) status) }
{
    match printed {
        Ok(()) => {
            writer.flush()?;
            Ok(Status::Clean)
        }
        Err(ExportError::Refused(refusal)) => {
            writeln!(writer, "{refusal}")?;
            writer.flush()?;
            Ok(Status::Refused)
        }
        Err(error) => Err(error),
    }
}
