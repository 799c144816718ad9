//! Texts of several words.
ghost use Rattle.std.specs.Prelude.{◌≡◌, IfOk};
ghost use Rattle.fault_texts.specs.Texts.{with_word};

use rooms_val::{Mem, Text};
use std::alloc::Global;

/// The first text and the second, with a space between them.
pub(crate) fn with_word(alloc: Global, first: &str, second: &str) -> Mem<Text>
    ensures { IfOk result (λ text. text ≡ with_word first.now second.now) }
{
    let mut words = String::new(alloc);
    words.push_str(first)?;
    words.push_str(" ")?;
    words.push_str(second)?;
    Text::of(alloc, words.as_str())
}
