//! Laws of marks that bring a document back.
ghost use Rattle.std.specs.Prelude.{◌≡◌, ◌≢◌, ◌∷◌, ◌++◌, ℕ, List, Bool, Some, map};
ghost use Rattle.rooms_val.specs.Data.{Data, Pairs, map as map_data, members_of, IsSound};
ghost use Rattle.rooms_val.specs.Maps.{AreRising};
ghost use Rattle.field_ops.specs.RecordOps.{RecordOps};
ghost use Rattle.doc_model.specs.Documents.{step};
ghost use Rattle.doc_model.specs.Inverses.{inverse_diff};
ghost use Rattle.doc_model.specs.Marks.{Item, mark, inverse, Marks, undo_diff, bail_diff};
ghost use Rattle.doc_model.specs.Marks.{after_mark, after_edit};
ghost use Rattle.doc_model.specs.Restoring.{Restores, AreBackAdmitted};

/// A mark that is made brings the document back to what it is (`made`). It still brings it back to that
/// after a mark of another name (`others`), and after an edit, be what it changes admitted or not (`edits`).
pub fn marks_restore()
    ensures made { (name : List ℕ) (marks : Marks) (document : Pairs)
        → Restores name (after_mark name marks) document document }
    ensures others { (name other : List ℕ) (marks : Marks) (document before : Pairs)
        → name ≢ other → Restores name marks document before
        → Restores name (after_mark other marks) document before }
    ensures edits { (admits : List ℕ → Data → Bool) (name : List ℕ) (marks : Marks)
        (document before : Pairs) (diff : RecordOps)
        → IsSound (map_data (members_of document))
        → IsSound (map_data (members_of (step admits document diff))) → AreRising diff
        → Restores name marks document before
        → Restores name (after_edit (inverse_diff admits document diff) marks)
        (step admits document diff) before }
{}

/// A bail to a mark that brings a document back to what it was does so, if the records that its
/// patches are to bring back are admitted.
pub fn bails_restore()
    ensures { (admits : List ℕ → Data → Bool) (name : List ℕ) (marks : Marks)
        (document before : Pairs) (diff : RecordOps)
        → AreRising document → Restores name marks document before
        → bail_diff name marks ≡ Some diff → AreBackAdmitted admits diff before
        → step admits document diff ≡ before }
{}

/// If after a mark there are inverses alone, an undo does what a bail to the mark does.
pub fn undo_does_what_bail_does()
    ensures { (name : List ℕ) (marks : Marks) (earlier : List Item) (first : RecordOps)
        (more : List RecordOps)
        → marks.history ≡ earlier ++ mark name ∷ map inverse (first ∷ more)
        → undo_diff marks ≡ bail_diff name marks }
{}
