//! What the definitions say, as contracts.
ghost use Rattle.std.specs.Prelude.{◌≡◌, ℕ, ◌+◌, ◌*◌, ◌^◌, ◌<◌, ◌≤◌, List, ◌++◌, length, Some, None, take, drop, [], ◌∷◌};
ghost use Rattle.std.specs.List.{AllByRecursion};
ghost use Rattle.byteorder.specs.Endian.{little_bytes};
ghost use Rattle.reg_tree.specs.declared.op.Op.{Op};
ghost use Rattle.reg_tree.specs.declared.element.Element.{Element};
ghost use Rattle.reg_tree.specs.Operations.{hive_of};
ghost use Rattle.reg_tree.specs.Encodings.{op_encoded_len, element_encoded_len};
ghost use Rattle.change_codec.specs.Readers.{IsEncoding, number_at};
ghost use Rattle.change_codec.specs.ModelChanges.{timed_element};
ghost use Rattle.change_codec.specs.Examples.{first_change, first_bytes, second_change, second_bytes};
ghost use Rattle.change_codec.specs.Encoding.{op_at, op_bytes, OpFits, HasEncoding, element_at, element_bytes, Fits};

/// A number of `n` bytes: each that fits is decoded again, whatever follows, and nothing else is decoded.
pub fn number()
    ensures { (n : ℕ) → IsEncoding (number_at n) (little_bytes n) (λ x. x < 256 ^ n) }
{}

/// An operation on a hive below `hives`: each that fits is decoded again, whatever follows, and nothing else is
/// decoded. Its encoding is as long as `reg_tree` counts.
pub fn operation()
    ensures encoding { (hives : ℕ) → hives ≤ 256 → IsEncoding (op_at hives) op_bytes (OpFits hives) }
    ensures length { (op : Op) → length (op_bytes op) ≡ op_encoded_len op }
{}

/// An accepted change whose hives are below `hives`.
pub fn element()
    // Each that fits is decoded again from its encoding, whatever follows.
    ensures again { (hives : ℕ) → hives ≤ 256 → (e : Element) (rest : List ℕ) → Fits hives e →
        element_at hives (element_bytes e ++ rest) ≡ Some (e, rest) }
    // The bytes that were read are the encoding of a change that fits, and the bytes after it.
    ensures back { (hives : ℕ) → hives ≤ 256 → (bytes : List ℕ) (e : Element) (rest : List ℕ) →
        element_at hives bytes ≡ Some (e, rest) → (bytes ≡ element_bytes e ++ rest) × Fits hives e }
    // What was read is read in the same way whatever follows.
    ensures exact { (hives : ℕ) → hives ≤ 256 → (bytes : List ℕ) (e : Element) (rest : List ℕ) →
        element_at hives bytes ≡ Some (e, rest) →
        (chunk : List ℕ) × (bytes ≡ chunk ++ rest)
        × ((r : List ℕ) → element_at hives (chunk ++ r) ≡ Some (e, r)) }
    // Encodings of two changes differ, and none is a beginning of the other.
    ensures apart { (hives : ℕ) → hives ≤ 256 → (e f : Element) (rest more : List ℕ) →
        Fits hives e → Fits hives f → element_bytes e ++ rest ≡ element_bytes f ++ more → (e ≡ f)
        × (rest ≡ more) }
    // It fits if its operations may be written at all and its encoding isn't too long.
    ensures fits { (hives : ℕ) (e : Element) → 1 ≤ length e.ops →
        AllByRecursion HasEncoding e.ops → AllByRecursion (λ op. hive_of op < hives) e.ops →
        e.moment < 256 ^ 8 → element_encoded_len e < 256 ^ 4 → Fits hives e }
    // The encoding is as long as `reg_tree` counts.
    ensures size { (e : Element) → length (element_bytes e) ≡ element_encoded_len e }
{}

/// The bytes of two changes, as they are laid out by hand: a key is created, and a value is written and another
/// deleted.
pub fn examples()
    ensures created { element_bytes first_change ≡ first_bytes }
    ensures created_read { element_at 1 first_bytes ≡ Some (first_change, []) }
    ensures changed { element_bytes second_change ≡ second_bytes }
    ensures changed_read { element_at 2 (second_bytes ++ 9 ∷ []) ≡ Some (second_change, 9 ∷ []) }
    // Refused: a byte that the length counts and no field takes, no operation at all, a kind that doesn't exist, and a
    // hive that the store doesn't have.
    ensures padded { element_at 1 (23 ∷ drop 1 first_bytes ++ 0 ∷ []) ≡ None }
    ensures without_operations { element_at 1 (16 ∷ 0 ∷ 0 ∷ 0 ∷ 5 ∷ 0 ∷ 0 ∷ 0 ∷ 0 ∷ 0 ∷ 0 ∷ 0 ∷ 0 ∷
        0 ∷ 0 ∷ 0 ∷ []) ≡ None }
    ensures other_kind { element_at 1 (take 16 first_bytes ++ 5 ∷ drop 17 first_bytes) ≡ None }
    ensures no_such_hive { element_at 1 second_bytes ≡ None }
{}

/// A law: the crash model tells changes apart. Two changes that have an operation, as all have, and that the model
/// takes for one, are one change: with the same moment, hives and operations.
pub fn timed_element_is_injective()
    ensures { (a b : Element) → 0 < length a.ops → 0 < length b.ops →
        timed_element a ≡ timed_element b → a ≡ b }
{}
