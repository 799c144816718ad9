//! The steps that a migration is made of.
use rooms_val::{Text, Val};

/// A change of one map inside a record. The path names the map, key by key from the record on; where it leads to no
/// map the step does nothing, up or down.
#[derive(Drop)]
pub enum MigStep {
    /// Up: puts the value where the key is missing. Down: deletes the key.
    Add {
        path: Vec<Text>,
        key: Text,
        val: Val,
    },
    /// Up: deletes the key. Down: puts the value where the key is missing.
    Remove {
        path: Vec<Text>,
        key: Text,
        val: Val,
    },
    /// Up: where the key `old` is there, its value stands under `new` alone. Down: the reverse.
    Rename {
        path: Vec<Text>,
        old: Text,
        new: Text,
    },
    /// Up: a text under the key that is a pair's first becomes its second, by the first such pair. Down: the reverse.
    MapEnum {
        path: Vec<Text>,
        key: Text,
        pairs: Vec<(Text, Text)>,
    },
    /// Up: a number under the key is multiplied by the factor, and clamped to 2^53 - 1 on either side. Down: it is
    /// divided by the factor, and rounded down. The factor is at least 2.
    Scale {
        path: Vec<Text>,
        key: Text,
        factor: u32,
    },
    /// Up: where one of the keys is there, those move into a new map under `into`. Down: where `into` is a map, it goes
    /// and its values under the keys move out.
    Nest {
        path: Vec<Text>,
        keys: Vec<Text>,
        into: Text,
    },
    /// Up: what `Nest` does down. Down: what `Nest` does up.
    Unnest {
        path: Vec<Text>,
        keys: Vec<Text>,
        into: Text,
    },
}

/// Which way a record goes.
#[derive(Clone, Copy, Debug, PartialEq, Eq)]
pub enum Way {
    /// To newer versions.
    Up,
    /// Back to older versions.
    Down,
}

impl MigStep {
    ghost use Rattle.std.specs.Prelude.{◌≡◌};
    ghost use Rattle.migrate_steps.specs.Steps.{path_of};

    // The keys that lead to the map that the step changes.
    pub(crate) fn path(&self) -> &[Text]
        ensures { result.now ≡ path_of self.now }
    {
        match self {
            MigStep::Add { path, .. }
            | MigStep::Remove { path, .. }
            | MigStep::Rename { path, .. }
            | MigStep::MapEnum { path, .. }
            | MigStep::Scale { path, .. }
            | MigStep::Nest { path, .. }
            | MigStep::Unnest { path, .. } => path,
        }
    }
}
