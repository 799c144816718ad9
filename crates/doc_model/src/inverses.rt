//! Laws of steps and of the diffs that bring back what they changed.
ghost use Rattle.std.specs.Prelude.{◌≡◌, ℕ, List, Bool, option_and_then};
ghost use Rattle.rooms_val.specs.Maps.{value_at, AreRising};
ghost use Rattle.rooms_val.specs.Data.{Data, Pairs, map, members_of, IsSound};
ghost use Rattle.field_ops.specs.RecordOps.{RecordOps};
ghost use Rattle.doc_model.specs.Documents.{step};
ghost use Rattle.doc_model.specs.Inverses.{record_after, inverse_of_op, inverse_diff, ArePatchedAdmitted};

/// After a step by a diff whose ids rise each id has what its operation, where it acts, makes of what stood there, and each
/// other id what it had.
pub fn steps_by_id()
    ensures { (admits : List ℕ → Data → Bool) (document : Pairs) (diff : RecordOps) (id : List ℕ)
        → AreRising diff
        → value_at (step admits document diff) id
        ≡ record_after admits id (value_at diff id) (value_at document id) }
{}

/// The inverse of a diff names the ids whose operation acts, each with its inverse.
pub fn inverts_by_id()
    ensures { (admits : List ℕ → Data → Bool) (document : Pairs) (diff : RecordOps) (id : List ℕ)
        → value_at (inverse_diff admits document diff) id
        ≡ option_and_then (λ c. inverse_of_op admits document id c) (value_at diff id) }
{}

/// A diff whose ids rise and then its inverse leave a sound document as it was, where each record that a patch changes was
/// admitted.
pub fn inverse_brings_back()
    ensures { (admits : List ℕ → Data → Bool) (document : Pairs) (diff : RecordOps)
        → IsSound (map (members_of document)) → AreRising diff
        → ArePatchedAdmitted admits document diff
        → step admits (step admits document diff) (inverse_diff admits document diff) ≡ document }
{}
