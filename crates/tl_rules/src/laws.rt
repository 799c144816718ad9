//! The law of the rules, the contract of a function that does nothing.
ghost use Rattle.std.specs.Prelude.{◌≡◌, ℕ, List, ◌≤◌};
ghost use Rattle.rooms_val.specs.Data.{Pairs};
ghost use Rattle.rooms_val.specs.Maps.{AreRising};
ghost use Rattle.signal_rules.specs.Values.{value};
ghost use Rattle.shape_tree.specs.Boxes.{box};
ghost use Rattle.shape_tree.specs.Trees.{tree, bound, count, most_levels};
ghost use Rattle.tl_rules.specs.declared.key.TlKey.{TlKey};
ghost use Rattle.tl_rules.specs.declared.key.TlKey.TheVariants as of;
ghost use Rattle.tl_rules.specs.declared.value.TlValue.{TlValue};
ghost use Rattle.tl_rules.specs.declared.value.TlValue.TheVariants as told;
ghost use Rattle.tl_rules.specs.Meaning.{tl_meaning};
ghost use Rattle.tl_rules.specs.Atoms.{ArePlainAtoms};

/// Where the atoms say what a map says, the value of each computed key is the plain query of that map.
/// `bound` alone asks that the keys of the map rise, and nothing else is asked of the map. `boxes` asks
/// that a box looks at most `most_levels` levels down.
pub fn values_are_plain_queries()
    ensures bound { (atoms : TlKey → TlValue) (m : Pairs) (id : List ℕ)
        → ArePlainAtoms atoms m → AreRising m
        → value tl_meaning atoms (of.Bound id) ≡ told.Ids (bound m id) }
    ensures tree { (atoms : TlKey → TlValue) (m : Pairs) (page : List ℕ)
        → ArePlainAtoms atoms m
        → value tl_meaning atoms (of.Tree page) ≡ told.Ids (tree m page) }
    ensures count { (atoms : TlKey → TlValue) (m : Pairs) (page : List ℕ)
        → ArePlainAtoms atoms m
        → value tl_meaning atoms (of.Count page) ≡ told.Number (count m page) }
    ensures boxes { (atoms : TlKey → TlValue) (m : Pairs) (id : List ℕ) (levels : ℕ)
        → ArePlainAtoms atoms m → levels ≤ most_levels
        → value tl_meaning atoms (of.Box id levels) ≡ told.Rect (box levels m id) }
{}
