//! Texts of which a check wants one.
ghost use Rattle.std.specs.Prelude.{◌≡◌, IfOk, map};

use rooms_val::{Mem, Text};
use std::alloc::Global;
use std::marker::Model;

/// A list of texts. Contracts see the list of their bytes.
#[derive(Drop)]
pub struct Texts {
    items: Vec<Text>,
}

impl Model for Texts {
    ghost use Rattle.std.specs.Prelude.{List, ℕ};
    ghost use Rattle.record_valid.specs.Code.{coded_texts};

    ghost Value = { List (List ℕ) };

    ghost coded = { coded_texts };

    ghost view = { λ t. t.items.items };
}

impl Texts {
    /// A list of copies of the texts.
    pub fn of(alloc: Global, texts: &[&str]) -> Mem<Texts>
        ensures { IfOk result (λ t. t ≡ map (λ s. s.now) texts.now) }
    {
        let mut items = Vec::with_capacity(alloc, texts.len())?;
        for text in texts {
            items.push(Text::of(alloc, text)?)?;
        }
        Ok(Texts { items })
    }

    /// The texts in order.
    pub fn as_slice(&self) -> &[Text]
        ensures { result.now ≡ self.now }
    {
        &self.items
    }
}
