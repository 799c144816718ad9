//! One order of all values, which has no memory to ask for: values are equal exactly if they are the same.
ghost use Rattle.std.specs.Prelude.{◌≡◌, ◌↔◌, IsTrue, List, ℕ, nat_eq};
ghost use Rattle.std.proofs.Common.{refl};
ghost use Rattle.std.specs.Cmp.{partial_equiv_from_equiv, eq_by_cmp_equiv, partial_order_from_total, on_total};
ghost use Rattle.std.specs.Cmp.Lexicographic.{pointwise, nat_list_cmp_total, nat_list_eq_equiv, texts_po, texts_ties};
ghost use Rattle.std.specs.Ordering.{eq_by_cmp, as_partial_cmp, on};
ghost use Rattle.rooms_val.specs.Data.{Data, Pairs, items_of, members_of};
ghost use Rattle.rooms_val.specs.Maps.{order};
ghost use Rattle.rooms_val.specs.Order.{rank, data_cmp, items_cmp, members_cmp};
ghost use Rattle.rooms_val.specs.View.{data_of};
ghost use Rattle.rooms_val.specs.OrderLaws.{data_total, items_total, members_total};
ghost use Rattle.rooms_val.specs.declared.val.Val.{Val};

use crate::fields::Fields;
use crate::text::Text;
use crate::val::Val;
use crate::vals::Vals;
use std::cmp::Ordering;

/// Values, texts, lists and maps are equal exactly if they are the same. It does nothing: the law is its contract.
pub fn equal_is_same()
    ensures values { (a b : Val) → IsTrue (eq_by_cmp (on data_of data_cmp) a b) ↔ (a ≡ b) }
    ensures texts { (a b : List ℕ) → IsTrue (pointwise nat_eq a b) ↔ (a ≡ b) }
    ensures lists { (a b : List Data) → IsTrue (eq_by_cmp (on items_of items_cmp) a b) ↔ (a ≡ b) }
    ensures maps { (a b : Pairs) → IsTrue (eq_by_cmp (on members_of members_cmp) a b) ↔ (a ≡ b) }
{}

impl Val {
    /// How it stands to the other.
    #[cycle(order)]
    pub(crate) fn compare(&self, other: &Val) -> Ordering
        ensures { result ≡ data_cmp (data_of self.now) (data_of other.now) }
    {
        match self {
            Val::Null => 0u8.cmp(&other.rank()),
            Val::Bool(truth) => match other {
                Val::Bool(theirs) => truth.cmp(theirs),
                _ => 1u8.cmp(&other.rank()),
            },
            Val::Int(number) => match other {
                Val::Int(theirs) => number.cmp(theirs),
                _ => 2u8.cmp(&other.rank()),
            },
            Val::Text(text) => match other {
                Val::Text(theirs) => text.as_str().cmp(&theirs.as_str()),
                _ => 3u8.cmp(&other.rank()),
            },
            Val::List(items) => match other {
                Val::List(theirs) => items.compare(theirs),
                _ => 4u8.cmp(&other.rank()),
            },
            Val::Map(fields) => match other {
                Val::Map(theirs) => fields.compare(theirs),
                _ => 5u8.cmp(&other.rank()),
            },
        }
    }

    // The place of its kind among the kinds.
    fn rank(&self) -> u8
        ensures { result ≡ rank (data_of self.now) }
    {
        match self {
            Val::Null => 0,
            Val::Bool(_) => 1,
            Val::Int(_) => 2,
            Val::Text(_) => 3,
            Val::List(_) => 4,
            Val::Map(_) => 5,
        }
    }
}

impl PartialEq for Val {
    ghost eq = { eq_by_cmp (on data_of data_cmp) };

    ghost laws = { partial_equiv_from_equiv (eq_by_cmp_equiv (on_total data_of data_total)) };

    fn eq(&self, other: &Val) -> bool {
        self.compare(other).is_eq()
    }
}

impl Eq for Val {
    ghost laws = { eq_by_cmp_equiv (on_total data_of data_total) };
}

impl PartialOrd for Val {
    ghost partial_cmp = { as_partial_cmp (on data_of data_cmp) };

    ghost laws = { partial_order_from_total (on_total data_of data_total) };

    fn partial_cmp(&self, other: &Val) -> Option<Ordering> {
        Some(self.compare(other))
    }
}

impl Ord for Val {
    ghost cmp = { on data_of data_cmp };

    ghost total = { on_total data_of data_total };

    ghost matches_partial_cmp = { λ x y. refl };

    ghost matches_eq = { λ x y. refl };

    fn cmp(&self, other: &Val) -> Ordering {
        self.compare(other)
    }
}

impl PartialEq for Vals {
    ghost eq = { eq_by_cmp (on items_of items_cmp) };

    ghost laws = { partial_equiv_from_equiv (eq_by_cmp_equiv (on_total items_of items_total)) };

    fn eq(&self, other: &Vals) -> bool {
        self.compare(other).is_eq()
    }
}

impl Eq for Vals {
    ghost laws = { eq_by_cmp_equiv (on_total items_of items_total) };
}

impl PartialOrd for Vals {
    ghost partial_cmp = { as_partial_cmp (on items_of items_cmp) };

    ghost laws = { partial_order_from_total (on_total items_of items_total) };

    fn partial_cmp(&self, other: &Vals) -> Option<Ordering> {
        Some(self.compare(other))
    }
}

impl Ord for Vals {
    ghost cmp = { on items_of items_cmp };

    ghost total = { on_total items_of items_total };

    ghost matches_partial_cmp = { λ x y. refl };

    ghost matches_eq = { λ x y. refl };

    fn cmp(&self, other: &Vals) -> Ordering {
        self.compare(other)
    }
}

impl PartialEq for Fields {
    ghost eq = { eq_by_cmp (on members_of members_cmp) };

    ghost laws = { partial_equiv_from_equiv (eq_by_cmp_equiv (on_total members_of members_total)) };

    fn eq(&self, other: &Fields) -> bool {
        self.compare(other).is_eq()
    }
}

impl Eq for Fields {
    ghost laws = { eq_by_cmp_equiv (on_total members_of members_total) };
}

impl PartialOrd for Fields {
    ghost partial_cmp = { as_partial_cmp (on members_of members_cmp) };

    ghost laws = { partial_order_from_total (on_total members_of members_total) };

    fn partial_cmp(&self, other: &Fields) -> Option<Ordering> {
        Some(self.compare(other))
    }
}

impl Ord for Fields {
    ghost cmp = { on members_of members_cmp };

    ghost total = { on_total members_of members_total };

    ghost matches_partial_cmp = { λ x y. refl };

    ghost matches_eq = { λ x y. refl };

    fn cmp(&self, other: &Fields) -> Ordering {
        self.compare(other)
    }
}

impl PartialEq for Text {
    ghost eq = { pointwise nat_eq };

    ghost laws = { partial_equiv_from_equiv nat_list_eq_equiv };

    fn eq(&self, other: &Text) -> bool {
        self.as_str() == other.as_str()
    }
}

impl Eq for Text {
    ghost laws = { nat_list_eq_equiv };
}

impl PartialOrd for Text {
    ghost partial_cmp = { as_partial_cmp order };

    ghost laws = { texts_po };

    fn partial_cmp(&self, other: &Text) -> Option<Ordering> {
        Some(self.cmp(other))
    }
}

impl Ord for Text {
    ghost cmp = { order };

    ghost total = { nat_list_cmp_total };

    ghost matches_partial_cmp = { λ x y. refl };

    ghost matches_eq = { texts_ties };

    fn cmp(&self, other: &Text) -> Ordering {
        self.as_str().cmp(&other.as_str())
    }
}
