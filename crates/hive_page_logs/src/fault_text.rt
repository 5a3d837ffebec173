//! What is said of a log of pages that isn't used.
ghost use Rattle.std.specs.Prelude.{◌≡◌, Some};
ghost use Rattle.hive_page_logs.specs.FaultTexts.{fault_text};

use crate::page_log::PageFault;
use std::fmt;

impl fmt::Display for PageFault {
    ghost output = { λ fault. Some (fault_text fault) };

    fn fmt<W: fmt::Write>(&self, f: &mut fmt::Formatter<W>) -> fmt::Result {
        match self {
            PageFault::OtherVersion => write!(f, "no log: version"),
            PageFault::Numbers { first, second } => {
                write!(f, "no log: numbers {} and {}", first.0, second.0)
            }
            PageFault::WrongBinsSize => write!(f, "no log: bins size"),
            PageFault::NoLetters => write!(f, "no log: no letters DIRT"),
            PageFault::BitmapCut => write!(f, "no log: bitmap cut"),
            PageFault::PagesCut => write!(f, "no log: pages cut"),
        }
    }
}
