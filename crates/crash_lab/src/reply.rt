//! The reply to a line of a laboratory, and its text.
ghost use Rattle.std.specs.Prelude.{◌≡◌, OnOk, IfOk, take};
ghost use Rattle.std.specs.Io.KnownBytes.{Appends};
ghost use Rattle.crash_lab.specs.Devices.{counts_before, tells_of_device};
ghost use Rattle.crash_lab.specs.Experiments.{is_refused, lab_reply_text, trees_text};

use disk_model::CallCounts;
use refusals::Refusal;
use reg_tree::Trees;
use reply_lines::ReplyLine;
use script_runner::is_refusal;
use std::io;
use std::io::Write;
use tree_printer::write_tree;

/// The reply to a line of a laboratory.
#[derive(Drop)]
pub(crate) enum LabReply {
    /// A reply of one line, such as any script's.
    OneLine {
        /// The reply.
        reported: ReplyLine,
    },
    /// A store was opened after a loss of power; its trees are written.
    Opened {
        /// The number of its last change.
        number: u64,
    },
}

impl LabReply {
    /// Whether it is a refusal.
    pub(crate) fn is_refusal(&self) -> bool
        ensures { result ≡ is_refused self.now }
    {
        match self {
            LabReply::OneLine { reported } => is_refusal(reported),
            LabReply::Opened { .. } => false,
        }
    }

    /// What is counted of calls as its line begins, if so many were counted before: a store that a line has opened is on
    /// a new disk.
    pub(crate) fn counts_before(&self, before: CallCounts) -> CallCounts
        ensures { result ≡ counts_before before self.now }
    {
        match self {
            LabReply::OneLine { .. } => before,
            LabReply::Opened { .. } => CallCounts::none(),
        }
    }

    /// Whether it reports that the device failed, in this call or in an earlier one.
    pub(crate) fn tells_of_device(&self) -> bool
        ensures { result ≡ tells_of_device self.now }
    {
        match self {
            LabReply::OneLine {
                reported: ReplyLine::Refused {
                    refusal: Refusal::DiskFault | Refusal::Faulted,
                },
            } => true,
            _ => false,
        }
    }

    /// Writes its text. These are the trees of the store that was opened, of which calls name the first `hives`.
    pub(crate) fn write<W: Write>(
        &self,
        hives: usize,
        trees: &Trees,
        writer: &mut W,
    ) -> io::Result<()>
        ensures { OnOk result (Appends (W.contents writer.old) (W.contents writer.new)
            (lab_reply_text self.now (take hives trees.now))) }
    {
        match self {
            LabReply::OneLine { reported } => reported.write(writer),
            LabReply::Opened { number } => {
                writeln!(writer, "opened {number}")?;
                write_trees(hives, trees, writer)
            }
        }
    }
}

// the text of the tree of each of the first `hives` hives, in their order
fn write_trees<W: Write>(hives: usize, trees: &Trees, writer: &mut W) -> io::Result<()>
    ensures { OnOk result (Appends (W.contents writer.old) (W.contents writer.new)
        (trees_text 0 (take hives trees.now))) }
{
    for hive in 0..hives.min(trees.len()) {
        let Some(tree) = trees.tree(hive as u8) else {
            unreachable!();
        };
        write_tree(writer, hive as u8, tree)?;
    }
    Ok(())
}
