//! What a report says of a file: a law.
ghost use Rattle.std.specs.Prelude.{◌≡◌, ℕ, List};
ghost use Rattle.reply_lines.specs.declared.status.Status.TheVariants.{Clean, Refused};
ghost use Rattle.reg_tree.specs.Maps.{TreeMap};
ghost use Rattle.hive_file_reader.specs.Hives.{FileHoldsHive};
ghost use Rattle.hive_check.specs.declared.finding.HiveReport.{HiveReport};
ghost use Rattle.hive_check.specs.Findings.{IsReportOf, LacksMemory, status_of};

/// A file of which a report with the status `Clean` is true holds a tree: it is a clean hive of a tree within the limits.
/// A file of which another report is true holds none, unless memory was wanting.
pub fn whole_or_not()
    ensures whole { (file : List ℕ) (report : HiveReport) → IsReportOf file report →
        status_of report ≡ Clean → (tree : TreeMap) × FileHoldsHive file tree }
    ensures not { (file : List ℕ) (report : HiveReport) → IsReportOf file report →
        status_of report ≡ Refused → (LacksMemory report.finding → ⊥) →
        (tree : TreeMap) → FileHoldsHive file tree → ⊥ }
{
    hive_file_reader::laws::one_or_none();
    hive_walk::laws::faults_exclude_trees();
    hive_records::laws::one_tree();
}
