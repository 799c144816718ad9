//! Laws of the definitions, each the contract of a function that does nothing.
ghost use Rattle.std.specs.Prelude.{◌≡◌, ℕ, ℤ, List, Option};
ghost use Rattle.rooms_val.specs.Data.{Data, Pairs};
ghost use Rattle.rooms_val.specs.Maps.{AreRising, set_at};
ghost use Rattle.rooms_val.specs.View.{data_of};
ghost use Rattle.rooms_val.specs.declared.val.Val.{Val};
ghost use Rattle.shape_tree.specs.Queries.{ids_meeting};
ghost use Rattle.shape_tree.specs.declared.query.Query.TheVariants as query;
ghost use Rattle.field_index.specs.Index.{indexed, with_record, ids_equal, ids_greater};

/// A write of a record to a map writes its value to the index of the map.
pub fn index_follows_writes()
    ensures { (type name : List ℕ) (m : Pairs) (id : List ℕ) (r : Option Data) → AreRising m
        → indexed type name (set_at m id r) ≡ with_record type name (indexed type name m) id r }
{}

/// What asks for a value of a field, or for a greater number, is answered by the index of the field alone.
pub fn queries_by_index()
    ensures equal { (m : Pairs) (type name : List ℕ) (value : Val)
        → ids_meeting m type (query.Eq name value)
        ≡ ids_equal (data_of value) (indexed type name m) }
    ensures greater { (m : Pairs) (type name : List ℕ) (number : ℤ)
        → ids_meeting m type (query.Gt name number) ≡ ids_greater number (indexed type name m) }
{}
