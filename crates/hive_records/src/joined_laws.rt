//! How the readers of single records and the definition of a whole key go together: laws.

ghost use Rattle.std.specs.Prelude.{◌≡◌, ◌≢◌, ◌∷◌, [], ℕ, Bool, List, Ok, Err, Some, None};
ghost use Rattle.refusals.specs.declared.refusal.Refusal.{Refusal};
ghost use Rattle.hive_cells.specs.Bins.{Cells};
ghost use Rattle.hive_records.specs.Readers.{look, ◌⟫◌};
ghost use Rattle.hive_records.specs.Numbers.{nil_offset};
ghost use Rattle.hive_records.specs.Values.{big_data, value_at};
ghost use Rattle.hive_records.specs.Lists.{leaf_at, subkeys_at};
ghost use Rattle.hive_records.specs.KeyNodes.{descriptor_at, key_at};
ghost use Rattle.hive_records.specs.Heads.{key_node_fault, IsKeyNode, value_fault, IsValueRec, security_fault, IsSecurity, list_fault, IsSubkeyList, big_fault, IsBigData};
ghost use Rattle.hive_records.specs.RecordReaders.{key_from, value_from, big_from, leaf_from, subkeys_from};
ghost use Rattle.hive_records.specs.declared.key_node.KeyNode.{KeyNode};
ghost use Rattle.hive_records.specs.declared.value_record.ValueRec.{ValueRec};
ghost use Rattle.hive_records.specs.declared.security_cell.Security.{Security};
ghost use Rattle.hive_records.specs.declared.list_record.SubkeyList.{SubkeyList};
ghost use Rattle.hive_records.specs.declared.big_data.BigData.{BigData};

/// A key whose key node is refused by itself is refused for the same cause, and no other cell is looked at. Any other
/// key is read on from the fields of its key node.
pub fn keys_go_on()
    ensures refused { (split : Bool) (cells : Cells) (at : ℕ) (bytes : List ℕ) (refusal : Refusal) →
        cells at ≡ Some bytes → key_node_fault bytes ≡ Some refusal →
        key_at split at cells ≡ record { own = at ∷ []; lent = []; says = Err refusal } }
    ensures read { (split : Bool) (cells : Cells) (at : ℕ) (bytes : List ℕ) (node : KeyNode) →
        cells at ≡ Some bytes → key_node_fault bytes ≡ None → IsKeyNode node bytes →
        key_at split at cells ≡ (look at ⟫ λ _. key_from split node) cells }
{}

/// The same is true of a value and its record.
pub fn values_go_on()
    ensures refused { (split : Bool) (cells : Cells) (at : ℕ) (bytes : List ℕ) (refusal : Refusal) →
        cells at ≡ Some bytes → value_fault bytes ≡ Some refusal →
        value_at split at cells ≡ record { own = at ∷ []; lent = []; says = Err refusal } }
    ensures read { (split : Bool) (cells : Cells) (at : ℕ) (bytes : List ℕ) (value : ValueRec) →
        cells at ≡ Some bytes → value_fault bytes ≡ None → IsValueRec value bytes →
        value_at split at cells ≡ (look at ⟫ λ _. value_from split value) cells }
{}

/// A descriptor is the descriptor of its security cell, which is lent. If the cell is refused by itself, the descriptor
/// is refused for the same cause.
pub fn descriptors_go_on()
    ensures refused { (cells : Cells) (at : ℕ) (bytes : List ℕ) (refusal : Refusal) →
        at ≢ nil_offset → cells at ≡ Some bytes → security_fault bytes ≡ Some refusal →
        descriptor_at at cells ≡ record { own = []; lent = at ∷ []; says = Err refusal } }
    ensures read { (cells : Cells) (at : ℕ) (bytes : List ℕ) (security : Security) →
        at ≢ nil_offset → cells at ≡ Some bytes → security_fault bytes ≡ None →
        IsSecurity security bytes → descriptor_at at cells
        ≡ record { own = []; lent = at ∷ []; says = Ok security.descriptor.now } }
{}

/// A key's list of subkeys that is refused by itself is refused for the same cause. Any other list is read on from its
/// fields. The same is true of a list below a list of lists, which may not be a list of lists itself.
pub fn lists_go_on()
    ensures refused { (cells : Cells) (count at : ℕ) (bytes : List ℕ) (refusal : Refusal) →
        count ≢ 0 → cells at ≡ Some bytes → list_fault bytes ≡ Some refusal →
        subkeys_at count at cells ≡ record { own = at ∷ []; lent = []; says = Err refusal } }
    ensures read { (cells : Cells) (count at : ℕ) (bytes : List ℕ) (list : SubkeyList) →
        count ≢ 0 → cells at ≡ Some bytes → list_fault bytes ≡ None →
        IsSubkeyList list bytes →
        subkeys_at count at cells ≡ (look at ⟫ λ _. subkeys_from count list) cells }
    ensures leaf_refused { (cells : Cells) (at : ℕ) (bytes : List ℕ) (refusal : Refusal) →
        cells at ≡ Some bytes → list_fault bytes ≡ Some refusal →
        leaf_at at cells ≡ record { own = at ∷ []; lent = []; says = Err refusal } }
    ensures leaf_read { (cells : Cells) (at : ℕ) (bytes : List ℕ) (list : SubkeyList) →
        cells at ≡ Some bytes → list_fault bytes ≡ None → IsSubkeyList list bytes →
        leaf_at at cells ≡ (look at ⟫ λ _. leaf_from list) cells }
{}

/// Big data whose record is refused by itself are refused for the same cause. Any others are read on from the record's
/// fields.
pub fn big_data_go_on()
    ensures refused { (cells : Cells) (size at : ℕ) (bytes : List ℕ) (refusal : Refusal) →
        cells at ≡ Some bytes → big_fault bytes size ≡ Some refusal →
        big_data size at cells ≡ record { own = at ∷ []; lent = []; says = Err refusal } }
    ensures read { (cells : Cells) (size at : ℕ) (bytes : List ℕ) (big : BigData) →
        cells at ≡ Some bytes → big_fault bytes size ≡ None → IsBigData big bytes →
        big_data size at cells ≡ (look at ⟫ λ _. big_from size big) cells }
{}
