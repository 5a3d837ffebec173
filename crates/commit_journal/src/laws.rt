//! What the definitions say, as contracts.
ghost use Rattle.std.specs.Prelude.{◌≡◌, ◌≢◌, ◌⊎◌, ℕ, ◌+◌, ◌<◌, ◌≤◌, List, [], ◌∷◌, ◌++◌, length, Some};
ghost use Rattle.crash_model.specs.Promises.{Content, nothing, JournalOn, top, floor};
ghost use Rattle.crash_model.specs.Files.{DecodesBy};
ghost use Rattle.disk_model.specs.FileState.{FileState, Writes, MayWrite, Syncs};
ghost use Rattle.disk_model.specs.FileState as file;
ghost use Rattle.commit_journal.specs.declared.layout.TheConstants.{OPEN_GATE};
ghost use Rattle.change_codec.specs.ModelChanges.{TimedOp};
ghost use Rattle.commit_journal.specs.Store.{Store, IsStore, encodings};
ghost use Rattle.commit_journal.specs.Encoding.{Encodings, Body, IsBody, PrefixEncodes, decoded};
ghost use Rattle.commit_journal.specs.OnDisk.{JournalView, is_on, MayBegin, with_elements, view_at, next_at};
ghost use Rattle.commit_journal.specs.Journals.{MakesProgress, DurableWithin, IsStep, DurableGrows};
ghost use Rattle.commit_journal.specs.declared.journal.Journal.{Journal};
ghost use Rattle.commit_journal.specs.OnDisk.{Phase, Phase.AtRest, Phase.BodyWritten, Phase.BodySynced, Phase.GateWritten, Phase.TrimWritten, Phase.Broken};

/// The encoding: the durable content is decoded whatever is after the gate that isn't open. With that gate open and a
/// body after it, there is more content.
pub fn encoding<Op>()
    ensures decodes { (t : Encodings Op) (now : Content Op) (used : ℕ) (prefix tail : List ℕ)
        (gate : ℕ) → PrefixEncodes t now used prefix → gate ≢ OPEN_GATE →
        decoded t (prefix ++ gate ∷ tail) ≡ Some now }
    ensures more { (t : Encodings Op) (now : Content Op) (used durable : ℕ) (prefix chunk : List ℕ)
        (b : Body Op) → PrefixEncodes t now used prefix → IsBody t chunk b → top durable now ≡ durable →
        b.first ≡ durable + 1 →
        1 ≤ length b.elements → durable + length b.elements ≤ t.most →
        PrefixEncodes t (with_elements now durable b.elements) (used + 1 + length chunk)
        (prefix ++ OPEN_GATE ∷ chunk) }
{}

/// An opening: a file at rest that decodes to some content is that of a journal at rest. A created file decodes to no
/// element.
pub fn opening<Op>()
    ensures found { (t : Encodings Op) → length t.header ≡ 64 → (bytes : List ℕ) (s any : Content Op) →
        decoded t bytes ≡ Some s → (gate : ℕ) × ((ahead : ℕ) →
        is_on t (view_at s any gate ahead AtRest) (file.at_rest bytes)) }
    ensures created { (t : Encodings Op) → length t.header ≡ 64 →
        (closed ahead : ℕ) (tail : List ℕ) (any : Content Op) → closed ≢ OPEN_GATE →
        is_on t (view_at nothing any 64 ahead AtRest) (file.at_rest (t.header ++ closed ∷ tail)) }
{}

/// In each phase, whatever a crash leaves decodes to the durable content or to what is under way.
pub fn leaves<Op>()
    ensures { (t : Encodings Op) (v : JournalView Op) (state : FileState) → is_on t v state →
        JournalOn (DecodesBy (decoded t)) v.choice (file.Leaves state) }
{}

/// Each device call leads from one phase to the next, or at a failure to a view with the same choice.
pub fn calls<Op>()
    ensures body_ok { (t : Encodings Op) (now then : Content Op) (gate ahead : ℕ) (old new : FileState)
        (durable : ℕ) (chunk : List ℕ) (b : Body Op) →
        is_on t (view_at now then gate ahead AtRest) old →
        MayBegin t now durable chunk b → Writes (gate + 1) (chunk ++ 0 ∷ []) old new →
        is_on t (view_at now (with_elements now durable b.elements) gate
        (gate + 1 + length chunk) BodyWritten) new }
    ensures body_failed { (t : Encodings Op) (now then : Content Op) (gate ahead : ℕ)
        (old new : FileState) (durable : ℕ) (chunk : List ℕ) (b : Body Op) →
        is_on t (view_at now then gate ahead AtRest) old →
        MayBegin t now durable chunk b → MayWrite (gate + 1) (chunk ++ 0 ∷ []) old new →
        is_on t (view_at now (with_elements now durable b.elements) gate
        (gate + 1 + length chunk) Broken) new }
    ensures body_synced { (t : Encodings Op) (now then : Content Op) (gate ahead : ℕ)
        (old new : FileState) → is_on t (view_at now then gate ahead BodyWritten) old →
        Syncs old new → is_on t (view_at now then gate ahead BodySynced) new }
    ensures gate_ok { (t : Encodings Op) (now then : Content Op) (gate ahead : ℕ)
        (old new : FileState) → is_on t (view_at now then gate ahead BodySynced) old →
        Writes gate (OPEN_GATE ∷ []) old new →
        is_on t (view_at now then gate ahead GateWritten) new }
    ensures gate_failed { (t : Encodings Op) (now then : Content Op) (gate ahead : ℕ)
        (old new : FileState) → is_on t (view_at now then gate ahead BodySynced) old →
        MayWrite gate (OPEN_GATE ∷ []) old new → is_on t (view_at now then gate ahead Broken) new }
    ensures gate_synced { (t : Encodings Op) (now then : Content Op) (gate ahead : ℕ)
        (old new : FileState) (any : Content Op) →
        is_on t (view_at now then gate ahead GateWritten) old → Syncs old new →
        is_on t (view_at then any ahead ahead AtRest) new }
    ensures sync_failed { (t : Encodings Op) (now then : Content Op) (gate ahead : ℕ)
        (old new : FileState) (phase : Phase) → next_at phase then ≡ Some then →
        is_on t (view_at now then gate ahead phase) old → new ≡ old →
        is_on t (view_at now then gate ahead Broken) new }
    ensures trim_ok { (t : Encodings Op) (now then : Content Op) (gate ahead : ℕ)
        (old new : FileState) → 0 < length now.elements →
        is_on t (view_at now then gate ahead AtRest) old → Writes 64 (0 ∷ []) old new →
        is_on t (view_at now nothing gate 64 TrimWritten) new }
    ensures trim_failed { (t : Encodings Op) (now then : Content Op) (gate ahead : ℕ)
        (old new : FileState) → 0 < length now.elements →
        is_on t (view_at now then gate ahead AtRest) old → MayWrite 64 (0 ∷ []) old new →
        is_on t (view_at now nothing gate 64 Broken) new }
    ensures trim_synced { (t : Encodings Op) (now : Content Op) (gate : ℕ) (old new : FileState)
        (any : Content Op) → is_on t (view_at now nothing gate 64 TrimWritten) old →
        Syncs old new → is_on t (view_at nothing any 64 64 AtRest) new }
{}

/// Eight steps in a row make a batch durable, if each of them makes progress as long as none before it made anything
/// durable. Eight steps that aren't refused while elements wait make more elements durable, since a whole batch begins
/// and ends in them.
pub fn progress()
    ensures on_device { (journals : ℕ → Journal) →
        ((k : ℕ) → k < 8 → DurableWithin k journals ⊎ MakesProgress (journals k) (journals (k + 1))) →
        DurableWithin 8 journals }
    ensures with_elements { (journals : ℕ → Journal) →
        ((k : ℕ) → k < 8 → IsStep (journals k) (journals (k + 1))) →
        (k : ℕ) × (k < 8) × DurableGrows (journals k) (journals (k + 1)) }
{}

/// Bytes are the journal of one store at most.
pub fn one_store()
    ensures { (bytes : List ℕ) (a b : Store) (x y : Content TimedOp) → IsStore a → IsStore b →
        decoded (encodings a) bytes ≡ Some x → decoded (encodings b) bytes ≡ Some y → a ≡ b }
{}
