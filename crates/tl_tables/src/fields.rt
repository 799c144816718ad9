//! Fields of maps, some of which are there at some versions alone.
ghost use Rattle.std.specs.Prelude.{◌≡◌, IfOk, [], map};
ghost use Rattle.record_valid.specs.View.{tree_of};
ghost use Rattle.record_valid.specs.Tree.{object, by_type, rows_of, one_of, id_of};
ghost use Rattle.tl_tables.specs.Fields.{always, since, until, with_field, own_fields, with_fields};
ghost use Rattle.tl_tables.specs.View.{field_tree};

use crate::rules::Rule;
use record_valid::{Check, Checks};
use rooms_val::Mem;
use std::alloc::Global;

/// A field, by its name and what its value must be.
pub(crate) enum Field {
    /// At every version.
    Always(&'static str, Rule),
    /// From a version on.
    Since(u32, &'static str, Rule),
    /// Up to a version, which is the last one that has it.
    Until(u32, &'static str, Rule),
}

/// The fields of a map at a version, with what their values must be.
#[derive(Drop)]
pub(crate) struct Fields {
    alloc: Global,
    version: u32,
    table: Checks,
}

impl Fields {
    /// No fields.
    pub(crate) fn none(alloc: Global, version: u32) -> Fields
        ensures version { result.version ≡ version }
        ensures table { result.table ≡ [] }
    {
        Fields {
            alloc,
            version,
            table: Checks::new(alloc),
        }
    }

    /// What every record of a type has.
    #[tactic(auto, unfolding(crate::specs::Fields::own_fields))]
    pub(crate) fn of_record(alloc: Global, version: u32, name: &str) -> Mem<Fields>
        ensures version { IfOk result (λ f. f.version ≡ version) }
        ensures table { IfOk result (λ f. f.table ≡ with_fields version [] (own_fields name.now)) }
    {
        Fields::none(alloc, version)
            .id_of("id", &[name])?
            .one_of("typeName", &[name])?
            .always("meta", Check::Dict)
    }

    /// With a field at every version.
    #[tactic(auto, unfolding(crate::specs::Fields::with_field))]
    pub(crate) fn always(self, name: &str, check: Check) -> Mem<Fields>
        ensures version { IfOk result (λ f. f.version ≡ self.version) }
        ensures table { IfOk result (λ f. f.table
            ≡ with_field self.version self.table (always name.now (tree_of check))) }
    {
        let table = self.table.with(self.alloc, name, check)?;
        Ok(Fields {
            alloc: self.alloc,
            version: self.version,
            table,
        })
    }

    /// With a field from a version on.
    #[tactic(auto, unfolding(crate::specs::Fields::with_field))]
    pub(crate) fn since(self, first: u32, name: &str, check: Check) -> Mem<Fields>
        ensures version { IfOk result (λ f. f.version ≡ self.version) }
        ensures table { IfOk result (λ f. f.table
            ≡ with_field self.version self.table (since first name.now (tree_of check))) }
    {
        if first <= self.version {
            return self.always(name, check);
        }
        Ok(self)
    }

    /// With a field up to a version, which is the last one that has it.
    #[tactic(auto, unfolding(crate::specs::Fields::with_field))]
    pub(crate) fn until(self, last: u32, name: &str, check: Check) -> Mem<Fields>
        ensures version { IfOk result (λ f. f.version ≡ self.version) }
        ensures table { IfOk result (λ f. f.table
            ≡ with_field self.version self.table (until last name.now (tree_of check))) }
    {
        if self.version <= last {
            return self.always(name, check);
        }
        Ok(self)
    }

    /// With an id of one of some types, at every version.
    pub(crate) fn id_of(self, name: &str, types: &[&str]) -> Mem<Fields>
        ensures version { IfOk result (λ f. f.version ≡ self.version) }
        ensures table { IfOk result (λ f. f.table
            ≡ with_field self.version self.table
            (always name.now (id_of (map (λ t. t.now) types.now)))) }
    {
        let check = Check::id_of(self.alloc, types)?;
        self.always(name, check)
    }

    /// With one of some texts, at every version.
    pub(crate) fn one_of(self, name: &str, texts: &[&str]) -> Mem<Fields>
        ensures version { IfOk result (λ f. f.version ≡ self.version) }
        ensures table { IfOk result (λ f. f.table
            ≡ with_field self.version self.table
            (always name.now (one_of (map (λ t. t.now) texts.now)))) }
    {
        let check = Check::one_of(self.alloc, texts)?;
        self.always(name, check)
    }

    /// With each of some fields, where the version has it.
    pub(crate) fn with_each(self, rows: &[Field]) -> Mem<Fields>
        ensures version { IfOk result (λ f. f.version ≡ self.version) }
        ensures table { IfOk result (λ f. f.table
            ≡ with_fields self.version self.table (map field_tree rows.now)) }
    {
        let mut fields = self;
        'rows: for row in rows {
            fields = fields.with_row(row)?;
        }
        Ok(fields)
    }

    // With a field, where the version has it.
    fn with_row(self, row: &Field) -> Mem<Fields>
        ensures version { IfOk result (λ f. f.version ≡ self.version) }
        ensures table { IfOk result (λ f. f.table
            ≡ with_field self.version self.table (field_tree row.now)) }
    {
        let alloc = self.alloc;
        match row {
            Field::Always(name, rule) => self.always(name, rule.check(alloc)?),
            Field::Since(first, name, rule) => self.since(*first, name, rule.check(alloc)?),
            Field::Until(last, name, rule) => self.until(*last, name, rule.check(alloc)?),
        }
    }

    /// A map with exactly these fields.
    pub(crate) fn object(self) -> Check
        ensures { tree_of result ≡ object (rows_of self.table) }
    {
        Check::Object(self.table)
    }

    /// What the check wants that stands here under the text in the field `type`.
    pub(crate) fn by_type(self) -> Check
        ensures { tree_of result ≡ by_type (rows_of self.table) }
    {
        Check::ByType(self.table)
    }
}
