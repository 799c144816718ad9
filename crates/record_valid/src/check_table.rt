//! Texts with a check for each.
ghost use Rattle.std.specs.Prelude.{◌≡◌, [], IfOk, None, option_map};
ghost use Rattle.std.specs.Result.{result_err};
ghost use Rattle.std.specs.Option.{option_copied};

use crate::keys::check_keys;
use crate::reject::{Reject, RejectKind, at};
use crate::tree::Check;
use field_ops::ObjectDiff;
use rooms_val::{Fields, Mem, Text, Val, entries};
use std::alloc::Global;
use std::marker::Model;

/// A table from texts to checks. Contracts see its pairs, whose texts rise by bytes.
#[cycle(check)]
#[derive(Drop)]
pub struct Checks {
    entries: Vec<(Text, Check)>,
}

impl Model for Checks {
    ghost use Rattle.std.specs.Prelude.{suc};
    ghost use Rattle.rooms_val.specs.Maps.{AreRising};
    ghost use Rattle.record_valid.specs.Tree.{Table, rows_of, rows_depth};
    ghost use Rattle.record_valid.specs.Code.{coded_table};

    ghost Value = { Table };

    ghost coded = { coded_table };

    ghost use Rattle.record_valid.specs.View.{table_view};

    ghost view = { λ c. table_view c.entries.items };

    ghost invariant = { λ c. AreRising c.entries.items };

    ghost size = { λ es. suc (rows_depth (rows_of es)) };

    ghost use Rattle.record_valid.specs.Falls.{rows_fall};

    ghost size_decreases = { λ c h. rows_fall c.entries.items };
}

impl Checks {
    ghost use Rattle.rooms_val.specs.View.{data_of};
    ghost use Rattle.record_valid.specs.Tree.{object, by_type, rows_of};
    ghost use Rattle.rooms_val.specs.Maps.{value_at, with_key};
    ghost use Rattle.record_valid.specs.View.{tree_of};
    ghost use Rattle.record_valid.specs.Faults.{first_fault, row_fault};
    ghost use Rattle.rooms_val.specs.Maps.{AreRising};
    ghost use Rattle.record_valid.specs.Parts.{type_text};
    ghost use Rattle.record_valid.specs.Patched.{fit_at, each_named_fits};

    /// The empty table.
    pub fn new(alloc: Global) -> Checks
        ensures { result ≡ [] }
    {
        Checks {
            entries: Vec::new(alloc),
        }
    }

    /// The table with a check under the text, in place of the one before.
    pub fn with(self, alloc: Global, text: &str, check: Check) -> Mem<Checks>
        ensures { IfOk result (λ c. c ≡ with_key self text.now (tree_of check)) }
    {
        let mut entries = self.entries;
        drop(entries::put(&mut entries, Text::of(alloc, text)?, check)?);
        Ok(Checks { entries })
    }

    /// The first fault of a map that is to have exactly these keys, each with a value that fits.
    #[cycle(valid)]
    pub(crate) fn check_object(&self, val: &Val, depth: u32) -> Result<(), Reject>
        ensures { result_err result
            ≡ first_fault depth None (object (rows_of self.now)) (data_of val.now) }
    {
        let Val::Map(map) = val else {
            return at(depth, Err(RejectKind::WrongKind));
        };
        let inside = depth.saturating_add(1);
        let entries = map.as_slice();
        at(inside, check_keys(&self.entries, entries))?;
        let kind = map.text_at("type");
        for ((_, check), (_, field)) in self.entries.iter().zip(entries) {
            check.check_value(field, inside, kind)?;
        }
        Ok(())
    }

    /// The first fault of a value by the check that stands under the text.
    #[cycle(valid)]
    pub(crate) fn check_row(&self, val: &Val, depth: u32, kind: Option<&str>) -> Result<(), Reject>
        ensures { result_err result
            ≡ row_fault depth (option_copied kind.entry) (rows_of self.now) (data_of val.now) }
    {
        let unlisted = Reject {
            depth,
            kind: RejectKind::NotListed,
        };
        let Some(text) = kind else {
            return Err(unlisted);
        };
        match entries::place_of(&self.entries, text) {
            Ok(place) => self.entries[place].1.check_value(val, depth, kind),
            Err(_) => Err(unlisted),
        }
    }

    /// Whether a check stands under the key and the value fits it, or neither is there.
    pub(crate) fn fits_at(&self, key: &str, val: Option<&Val>, kind: Option<&str>) -> bool
        ensures { result ≡ fit_at (option_copied kind.entry) (value_at self.now key.now)
            (option_map (λ v. data_of v.now) val.entry) }
    {
        match entries::get(&self.entries, key) {
            Some(check) => match val {
                Some(found) => check.check_value(found, 1, kind).is_ok(),
                None => false,
            },
            None => val.is_none(),
        }
    }

    /// Whether under each key that the patch names there are a check and a value that fits it, or neither. It costs a
    /// logarithm of the keys for each of those, and the values under them.
    pub(crate) fn still_fit(&self, map: &Fields, patch: &ObjectDiff) -> bool
        ensures fits { result ≡ each_named_fits (type_text map.now) self.now map.now patch.now }
        ensures rising { AreRising self.now }
    {
        // That the texts rise is told by the length.
        let _ = self.entries.len();
        let kind = map.text_at("type");
        for (key, _) in patch.as_slice() {
            if !self.fits_at(key.as_str(), map.get(key.as_str()), kind) {
                return false;
            }
        }
        true
    }
}
