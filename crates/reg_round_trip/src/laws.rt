//! Laws of exports that are read again. They have no code: each is the contract of a function.
ghost use Rattle.std.specs.Prelude.{◌≡◌, ◌≢◌, ◌==◌, [], ◌∷◌, ◌≤◌, ℕ, List, length, Option, true, Some, Ok};
ghost use Rattle.std.specs.List.{AllByRecursion, AllZip, slice_split};
ghost use Rattle.refusals.specs.declared.limits.TheConstants.{MOST_PATH_NAMES};
ghost use Rattle.reg_names.specs.Names.{is_key_name, path_of};
ghost use Rattle.reg_names.specs.Printable.{is_printable};
ghost use Rattle.reg_prefixes.specs.declared.prefix.Prefix.{Prefix};
ghost use Rattle.reg_prefixes.specs.Places.{place_in, shown_in};
ghost use Rattle.reg_export.specs.RegTexts.{reg_path};
ghost use Rattle.reg_export.specs.declared.encoding.Encoding.{Encoding};
ghost use Rattle.reg_export.specs.NameTests.{can_show};
ghost use Rattle.reg_export.specs.RegFiles.{file_names, reg_text};
ghost use Rattle.reg_tree.specs.Maps.{TreeMap};
ghost use Rattle.reg_tree.specs.Judgement.{applied};
ghost use Rattle.store_model.specs.Invariant.{AreLegalChanges};
ghost use Rattle.store_model.specs.Machine.{Machine, named_trees};
ghost use Rattle.key_walk.specs.KeyRows.{NamedRow};
ghost use Rattle.reg_file.specs.Files.{reg_file_of};
ghost use Rattle.reg_apply.specs.declared.outcome.ApplyOutcome.{ApplyOutcome};
ghost use Rattle.reg_apply.specs.Applied.{EndsApplication};
ghost use Rattle.reg_round_trip.specs.Statements.{export_statements};
ghost use Rattle.reg_round_trip.specs.Exports.{IsPrefixText, IsHiveOfLimits, AreReadAs};
ghost use Rattle.reg_round_trip.specs.Contents.{SameContent};
ghost use Rattle.reg_round_trip.specs.Operations.{new_trees, trees_ops};
ghost use Rattle.reg_round_trip.specs.NewTrees.{IsCallTree};
ghost use Rattle.reg_round_trip.specs.Shown.{PrefixesAreApart, exported, exported_part};
ghost use Rattle.reg_round_trip.specs.Restores.{FileRestores, EndsGood, HasPartIn};
ghost use Rattle.reg_round_trip.specs.Parts.{part_ops};
ghost use Rattle.reg_round_trip.specs.Conditions.{CanRestore, CanRestorePart};

/// The bytes of an export, in UTF-16 or in UTF-8, are read as its statements, and without a fault: for each key in order
/// its creation, and then for each of its values that it is written. It is so of hives within the limits of
/// `specs/Exports`, if a file in this encoding can show all names: else no export is written.
pub fn exports_are_read()
    ensures { (encoding : Encoding) (hives : List (List ℕ × List NamedRow)) →
        AllByRecursion IsHiveOfLimits hives → can_show encoding (file_names hives) ≡ true →
        AreReadAs (reg_text encoding hives) (export_statements hives) }
{
    reg_file::laws::files_are_parsed();
    reg_file::laws::text_is_read();
}

/// Names of units from 0x20 to 0x7e, joined by one backslash each, are the text of a prefix, if they don't begin with a
/// minus.
pub fn joined_names_are_prefixes()
    ensures { (text : List ℕ) → AllByRecursion (λ unit. is_printable unit ≡ true) text →
        ((rest : List ℕ) → text ≢ 45 ∷ rest) →
        AllByRecursion (λ name. name ≢ []) (slice_split (λ unit. unit == 92) text) → IsPrefixText text }
{}

/// The path by which an export shows a key leads back to its hive and its names, if no prefix begins another one.
pub fn paths_lead_to_keys()
    ensures { (prefixes : List Prefix) (hive : ℕ) (prefix : List ℕ) (names : List (List ℕ)) → PrefixesAreApart prefixes →
        shown_in prefixes hive ≡ Some prefix → AllByRecursion (λ name. is_key_name name ≡ true) names →
        length names ≤ MOST_PATH_NAMES →
        (text : List ℕ) × (place_in prefixes (reg_path prefix names) ≡ Some (hive, text)) × (path_of text ≡ Ok names) }
{}

/// Take trees that calls may make in new hives. On as many new trees the operations of all their keys and values are
/// legal one after another, and make trees of the same content: the same keys as spelled, with the same values.
pub fn operations_rebuild_trees()
    ensures legal { (trees : List TreeMap) (moment : ℕ) → AllByRecursion IsCallTree trees →
        AreLegalChanges (new_trees trees) (trees_ops 0 trees) moment }
    ensures same { (trees : List TreeMap) (moment : ℕ) → AllByRecursion IsCallTree trees →
        AllZip SameContent trees (applied (new_trees trees) (trees_ops 0 trees) moment) }
{}

/// Trees of the same content have the same export, by the same prefixes in the same encoding.
pub fn same_content_same_export()
    ensures { (encoding : Encoding) (prefixes : List Prefix) (trees others : List TreeMap) →
        AllZip SameContent trees others →
        reg_text encoding (exported prefixes trees) ≡ reg_text encoding (exported prefixes others) }
{}

/// The export of trees, in UTF-16 or in UTF-8, applied to a store with as many new hives, if `specs/Conditions` holds:
///
/// - `restores`: the export is read without a fault, and its statements are taken into one plan and no other. The plan has
///   the operations of the trees' keys and values, and then trees of the same content.
/// - `ended`: once the export was applied, the store's trees have the same content. No line of it is refused, but for want
///   of memory.
pub fn exports_restore_trees()
    ensures restores { (encoding : Encoding) (prefixes : List Prefix) (trees : List TreeMap) (moment : ℕ) (old : Machine) →
        CanRestore prefixes trees old →
        FileRestores prefixes moment (reg_text encoding (exported prefixes trees)) old (trees_ops 0 trees)
        (AllZip SameContent trees) }
    ensures ended { (encoding : Encoding) (prefixes : List Prefix) (trees : List TreeMap) (moment : ℕ)
        (unit : Option (List ℕ)) (old new : Machine) (outcome : ApplyOutcome) → CanRestore prefixes trees old →
        EndsApplication prefixes moment unit (reg_file_of (reg_text encoding (exported prefixes trees))) old outcome new →
        EndsGood (AllZip SameContent trees) outcome new }
{
    reg_file::laws::files_are_parsed();
    reg_file::laws::text_is_read();
}

/// The export of a key with all below it, applied to a store whose hive of the same number is new, if `specs/Conditions`
/// holds. It is as in [`exports_restore_trees`], but the hive gets the content of this part: its keys and values, and the
/// keys on the way to it without values. The other hives stay.
pub fn part_exports_restore_parts()
    ensures restores { (encoding : Encoding) (prefixes : List Prefix) (hive : ℕ) (tree : TreeMap) (top : List (List ℕ))
        (moment : ℕ) (old : Machine) → CanRestorePart prefixes hive tree top old →
        FileRestores prefixes moment (reg_text encoding (exported_part prefixes hive tree top)) old (part_ops hive tree top)
        (HasPartIn tree top hive (named_trees old)) }
    ensures ended { (encoding : Encoding) (prefixes : List Prefix) (hive : ℕ) (tree : TreeMap) (top : List (List ℕ))
        (moment : ℕ) (unit : Option (List ℕ)) (old new : Machine) (outcome : ApplyOutcome) → CanRestorePart prefixes hive tree top old →
        EndsApplication prefixes moment unit (reg_file_of (reg_text encoding (exported_part prefixes hive tree top))) old outcome new →
        EndsGood (HasPartIn tree top hive (named_trees old)) outcome new }
{
    reg_file::laws::files_are_parsed();
    reg_file::laws::text_is_read();
}
