//! Laws of the script's grammar: the parser gives what the relations of `specs/Grammar` say.
ghost use Rattle.std.specs.Prelude.{◌≡◌, ℕ, List, Some};
ghost use Rattle.script_syntax.specs.Lines.{line_of};
ghost use Rattle.script_syntax.specs.Grammar.{IsLabel, BytesParseTo};
ghost use Rattle.script_syntax.specs.declared.line.Line.{Line};

/// Bytes are parsed to a line exactly if they are that line by the grammar, and no bytes are two lines.
pub fn parses_what_is_printed()
    ensures read { (bytes : List ℕ) (line : Line) → BytesParseTo bytes line → line_of bytes ≡ Some line }
    ensures parsed { (bytes : List ℕ) (line : Line) → line_of bytes ≡ Some line →
        BytesParseTo bytes line }
    ensures one { (bytes : List ℕ) (line other : Line) → BytesParseTo bytes line → BytesParseTo bytes other →
        line ≡ other }
{}

/// Two words that parse to one label are one word: labels are equal exactly if their words in the script are.
pub fn a_label_has_one_spelling()
    ensures { (word other label : List ℕ) → IsLabel word label → IsLabel other label →
        word ≡ other }
{}
