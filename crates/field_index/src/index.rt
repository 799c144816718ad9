//! The index itself.
ghost use Rattle.std.specs.Prelude.{◌≡◌, [], None, IfOk, OnOk, OnErr};
ghost use Rattle.rooms_val.specs.View.{data_of};
ghost use Rattle.shape_tree.specs.View.{maybe_data};
ghost use Rattle.field_index.specs.Index.{field_of, with_record, ids_equal, ids_greater};

use crate::ids::is_id_of;
use crate::sorted_values::SortedValues;
use rooms_val::{Mem, Text, Val};
use std::alloc::Global;

/// The values of one field, by the ids of the records of one type that have it.
///
/// Contracts see the type's name, the field, the values by id, and the epoch.
#[derive(Drop)]
pub struct FieldIndex {
    // The name of the type.
    type_name: Text,
    // The field.
    field: Text,
    // The field's value of each id, for ids of the type alone.
    values: SortedValues,
    // The epoch of the last refresh; none before the first. It is kept for the caller.
    epoch: Option<u64>,
}

impl FieldIndex {
    /// An index without values, which was never refreshed.
    pub fn new(alloc: Global, type_name: Text, field: Text) -> FieldIndex
        ensures type_name { result.type_name ≡ type_name }
        ensures field { result.field ≡ field }
        ensures values { result.values ≡ [] }
        ensures epoch { result.epoch ≡ None }
    {
        FieldIndex {
            type_name,
            field,
            values: SortedValues::new(alloc),
            epoch: None,
        }
    }

    /// The name of the type.
    pub fn type_name(&self) -> &str
        ensures { result.now ≡ self.now.type_name }
    {
        self.type_name.as_str()
    }

    /// The field.
    pub fn field(&self) -> &str
        ensures { result.now ≡ self.now.field }
    {
        self.field.as_str()
    }

    /// The epoch that was set last; none if there is none.
    pub fn epoch(&self) -> Option<u64>
        ensures { result ≡ self.now.epoch }
    {
        self.epoch
    }

    /// Sets the epoch, which no other call reads.
    pub fn set_epoch(&mut self, epoch: Option<u64>)
        ensures { self.new ≡ record self.old { epoch = epoch } }
    {
        self.epoch = epoch;
    }

    /// Takes all values away. The epoch stays.
    pub fn clear(&mut self)
        ensures { self.new ≡ record self.old { values = [] } }
    {
        self.values.clear();
    }

    /// The id now has this record, or none. An id of another type changes nothing. It costs a logarithm and a few
    /// copies of the id and of the value.
    ///
    /// # Errors
    ///
    /// Memory was refused, and nothing changed.
    pub fn set(&mut self, alloc: Global, id: &str, stored: Option<&Val>) -> Mem<()>
        ensures ok { OnOk result (self.new ≡ record self.old {
          values = with_record self.old.type_name self.old.field self.old.values id.now
              (maybe_data stored.entry);
        }) }
        ensures err { OnErr result (self.new ≡ self.old) }
    {
        if !is_id_of(self.type_name.as_str(), id) {
            return Ok(());
        }
        match field_of(stored, self.field.as_str()) {
            Some(value) => self.values.put(alloc, id, value),
            None => self.values.take(alloc, id),
        }
    }

    /// The ids whose value is equal, by id. It costs a logarithm and what it gives.
    ///
    /// # Errors
    ///
    /// Memory was refused.
    pub fn equal(&self, alloc: Global, value: &Val) -> Mem<Vec<Text>>
        ensures { IfOk result (λ ids. ids.items ≡ ids_equal (data_of value.now) self.now.values) }
    {
        self.values.equal(alloc, value)
    }

    /// The ids whose value is a greater whole number, by id. It costs a logarithm, what it gives, and sorting that by
    /// id.
    ///
    /// # Errors
    ///
    /// Memory was refused.
    pub fn greater(&self, alloc: Global, number: i64) -> Mem<Vec<Text>>
        ensures { IfOk result (λ ids. ids.items ≡ ids_greater number self.now.values) }
    {
        self.values.greater(alloc, number)
    }
}

// The value of a field of a record, if there is a record that has the field.
fn field_of<'a>(holder: Option<&'a Val>, name: &str) -> Option<&'a Val>
    ensures { maybe_data result ≡ field_of name.now (maybe_data holder.entry) }
{
    holder?.get(name)
}
