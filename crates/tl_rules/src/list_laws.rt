//! The laws of the lists. Each function does nothing: its contract is the law.
ghost use Rattle.std.specs.Prelude.{◌≡◌, ◌≢◌, ℕ, List, Some, None};
ghost use Rattle.std.specs.List.{insert};
ghost use Rattle.std.specs.List.Sorted.{IsPartitionedBy};
ghost use Rattle.rooms_val.specs.Data.{Data, Pairs};
ghost use Rattle.rooms_val.specs.Maps.{AreRising, value_at, with_key, without_key};
ghost use Rattle.shape_tree.specs.Trees.{Sibling};
ghost use Rattle.tl_rules.specs.declared.listing.Listing.{Listing};
ghost use Rattle.tl_rules.specs.Listings.{owner_of, place_of, listed, is_before};
ghost use Rattle.tl_rules.specs.ListLaws.{IsPlaceAmong, IsTakenOut};

/// A place parts each list: no id that stands before the place comes after one that doesn't. So it is for the lists of the
/// map without one record, whose ids are looked up in the whole map.
pub fn lists_are_parted()
    ensures whole { (l : Listing) (m : Pairs) (place : Sibling) (owner : List ℕ) → AreRising m
        → IsPartitionedBy (is_before l m place) (listed l m owner) }
    ensures rest { (l : Listing) (m : Pairs) (place : Sibling) (owner id : List ℕ) → AreRising m
        → IsPartitionedBy (is_before l m place) (listed l (without_key m id) owner) }
{}

/// A record that goes is taken out of the list of its owner, at the place where it stands.
pub fn a_record_is_taken_out()
    ensures { (l : Listing) (m : Pairs) (id : List ℕ) (d : Data) (owner : List ℕ) (n : ℕ)
        → AreRising m → value_at m id ≡ Some d → owner_of l (id, d) ≡ Some owner
        → IsPlaceAmong l m (place_of l (id, d)) (listed l m owner) n
        → IsTakenOut id n (listed l m owner) (listed l (without_key m id) owner) }
{}

/// A record that comes is put into the list of its owner, at the place where it stands. The others are looked up in a map
/// that may have another record under its id.
pub fn a_new_record_is_put_in()
    ensures { (l : Listing) (m : Pairs) (id : List ℕ) (d : Data) (owner : List ℕ) (n : ℕ)
        → AreRising m → owner_of l (id, d) ≡ Some owner
        → IsPlaceAmong l m (place_of l (id, d)) (listed l (without_key m id) owner) n
        → listed l (with_key m id d) owner ≡ insert (listed l (without_key m id) owner) n id }
{}

/// A record that comes or goes leaves the lists of all but its owner as they were.
pub fn other_lists_stay()
    ensures coming { (l : Listing) (m : Pairs) (id : List ℕ) (d : Data) (other : List ℕ)
        → AreRising m → owner_of l (id, d) ≢ Some other
        → listed l (with_key m id d) other ≡ listed l (without_key m id) other }
    ensures going { (l : Listing) (m : Pairs) (id : List ℕ) (d : Data) (other : List ℕ)
        → AreRising m → value_at m id ≡ Some d → owner_of l (id, d) ≢ Some other
        → listed l (without_key m id) other ≡ listed l m other }
    ensures absent { (l : Listing) (m : Pairs) (id : List ℕ) (other : List ℕ)
        → value_at m id ≡ None
        → listed l (without_key m id) other ≡ listed l m other }
{}

/// A record whose owner and place stay leaves every list as it was.
pub fn unmoved_records_stay()
    ensures { (l : Listing) (m : Pairs) (id : List ℕ) (d e : Data) (owner : List ℕ)
        → AreRising m → value_at m id ≡ Some d → owner_of l (id, d) ≡ owner_of l (id, e)
        → place_of l (id, d) ≡ place_of l (id, e)
        → listed l (with_key m id e) owner ≡ listed l m owner }
{}
