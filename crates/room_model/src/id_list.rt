//! The ids that a copy names, or that a query finds.
ghost use Rattle.std.specs.Prelude.{◌≡◌};

use rooms_val::Text;
use std::marker::Model;

/// Ids in their order. Contracts see the list.
#[derive(Drop)]
pub struct IdList {
    ids: Vec<Text>,
}

impl Model for IdList {
    ghost use Rattle.std.specs.Prelude.{List, ℕ};

    ghost Value = { List (List ℕ) };

    ghost view = { λ list. list.ids.items };
}

impl IdList {
    /// These ids. It takes no memory.
    pub fn of(ids: Vec<Text>) -> IdList
        ensures { result ≡ ids.items }
    {
        IdList { ids }
    }

    /// The ids.
    pub fn as_slice(&self) -> &[Text]
        ensures { result.now ≡ self.now }
    {
        self.ids.as_slice()
    }
}
