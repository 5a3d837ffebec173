//! Laws of registration files: what is parsed is what the grammar of `specs/Grammar` has.
ghost use Rattle.std.specs.Prelude.{◌≡◌, ◌≢◌, ◌==◌, false, All, ◌⊎◌, ℕ, ◌<◌, ◌^◌, ◌++◌, ◌∷◌, [], List, Option, Some, None, map, flat_map};
ghost use Rattle.std.specs.List.{AllByRecursion};
ghost use Rattle.std.specs.Int.{w16, to_le_bytes};
ghost use Rattle.reg_file.specs.Lines.{file_lines, unit_lines, last_is_none};
ghost use Rattle.reg_file.specs.Files.{lines_file};
ghost use Rattle.reg_file.specs.Grammar.{IsFile, IsStopped, IsNoHeader};
ghost use Rattle.reg_file.specs.declared.statement.NumberedStatement.{NumberedStatement};
ghost use Rattle.reg_file.specs.declared.fault.Fault.{Fault};

/// Lines that are a file by the grammar are parsed to its statements, and no lines are two files. Lines that are parsed
/// without a fault are a file by the grammar. If there is a fault, the statements are those of the entries before it,
/// and the fault is one of what follows them.
pub fn files_are_parsed()
    ensures read { (lines : List (List ℕ)) (statements : List NumberedStatement) →
        IsFile lines statements → lines_file (map Some lines) ≡ record { statements = statements; fault = None } }
    ensures parsed { (lines : List (Option (List ℕ))) (statements : List NumberedStatement) →
        lines_file lines ≡ record { statements = statements; fault = None } →
        (all : List (List ℕ)) × (lines ≡ map Some all) × IsFile all statements }
    ensures one { (lines : List (List ℕ)) (statements others : List NumberedStatement) →
        IsFile lines statements → IsFile lines others → statements ≡ others }
    ensures stopped { (lines : List (Option (List ℕ))) (statements : List NumberedStatement)
        (fault : Fault) → lines ≢ [] → lines_file lines ≡ record { statements = statements; fault = Some fault } →
        IsStopped lines statements fault ⊎ IsNoHeader lines statements fault }
{}

/// ASCII is read byte by byte. Behind the mark FF FE are units, each with the low byte first, whichever they are; a
/// byte more at the end makes the last line none. Lines stand between line feeds: of those that were written with a
/// carriage return and a line feed behind each, the carriage return is left, and an empty line follows them.
pub fn text_is_read()
    ensures ascii { (bytes : List ℕ) → AllByRecursion (λ byte. byte < 128) bytes →
        file_lines bytes ≡ unit_lines bytes }
    ensures wide { (units : List ℕ) → AllByRecursion (λ unit. unit < 2 ^ 16) units →
        file_lines (255 ∷ 254 ∷ flat_map (to_le_bytes w16) units) ≡ unit_lines units }
    ensures odd { (units : List ℕ) (last : ℕ) → AllByRecursion (λ unit. unit < 2 ^ 16) units →
        file_lines (255 ∷ 254 ∷ (flat_map (to_le_bytes w16) units ++ last ∷ []))
        ≡ last_is_none (unit_lines units) }
    ensures crlf { (lines : List (List ℕ)) →
        AllByRecursion (λ line. All (λ unit. (unit == 10) ≡ false) line) lines →
        unit_lines (flat_map (λ line. line ++ 13 ∷ 10 ∷ []) lines)
        ≡ map Some (map (λ line. line ++ 13 ∷ []) lines ++ [] ∷ []) }
{}
