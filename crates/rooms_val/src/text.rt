//! Text that a value owns, and that its copies share.
ghost use Rattle.std.specs.Prelude.{◌≡◌, ◌≤◌, ◌++◌, length, IfOk, IsUtf8, string_bytes};

use crate::memory::Mem;
use std::alloc::Global;
use std::marker::Model;
use std::str;
use std::sync::ArcStr;

// How many bytes a text has at most that stands in place.
const MOST_SHORT: usize = 22;

// A text of few bytes, in place.
#[derive(Drop)]
struct Short {
    // The text, and after it zeros.
    bytes: [u8; MOST_SHORT],
    // How many bytes the text has, at most 22.
    len: u8,
}

impl Model for Short {
    ghost use Rattle.std.specs.Prelude.{◌≡◌, ◌≤◌, List, ℕ, take, length, IsUtf8};

    ghost Value = { List ℕ };

    ghost view = { λ s. take s.len s.bytes };

    ghost invariant = { λ s. (s.len ≤ 22) × (length s.bytes ≡ 22)
        × ∥ IsUtf8 (take s.len s.bytes) ∥₁ };
}

impl Short {
    // A text of at most 22 bytes.
    fn of(text: &str) -> Short
        requires { length text.now ≤ 22 }
        ensures { result ≡ text.now }
    {
        let len = text.len();
        let mut bytes = [0u8; MOST_SHORT];
        bytes[..len].copy_from_slice(text.as_bytes());
        Short {
            bytes,
            len: len as u8,
        }
    }

    // An equal text.
    fn copy(&self) -> Short
        ensures { result ≡ self.now }
    {
        Short {
            bytes: self.bytes,
            len: self.len,
        }
    }

    // The text itself.
    fn as_str(&self) -> &str
        ensures bytes { result.now ≡ self.now }
        ensures utf8 { IsUtf8 self.now }
    {
        unsafe { str::from_utf8_unchecked(&self.bytes[..self.len as usize]) }
    }
}

// Where the bytes of a text are.
#[derive(Drop)]
enum Place {
    // In place.
    Here(Short),
    // In memory that copies of the text share.
    There(ArcStr),
}

/// Text in UTF-8. Contracts see its bytes.
///
/// A text of at most 22 bytes stands in place, and a longer one in memory that its copies share.
#[derive(Drop)]
pub struct Text {
    place: Place,
}

impl Model for Text {
    ghost use Rattle.std.specs.Prelude.{List, ℕ};
    ghost use Rattle.rooms_val.specs.Shared.{text_bytes};

    ghost Value = { List ℕ };

    ghost view = { λ t. text_bytes t.place };
}

impl Text {
    /// A text of these characters. It takes memory exactly if it has more than 22 bytes.
    pub fn of(alloc: Global, text: &str) -> Mem<Text>
        ensures { IfOk result (λ t. t ≡ text.now) }
    {
        if text.len() <= MOST_SHORT {
            return Ok(Text {
                place: Place::Here(Short::of(text)),
            });
        }
        Ok(Text {
            place: Place::There(ArcStr::from_str(alloc, text)?),
        })
    }

    /// The text that a string is. A string of more than 22 bytes is moved.
    pub(crate) fn from_string(text: String) -> Mem<Text>
        ensures { IfOk result (λ t. t ≡ string_bytes text) }
    {
        if text.len() > MOST_SHORT {
            return Ok(Text {
                place: Place::There(ArcStr::from_string(text)?),
            });
        }
        Ok(Text {
            place: Place::Here(Short::of(text.as_str())),
        })
    }

    /// The text itself.
    pub fn as_str(&self) -> &str
        ensures bytes { result.now ≡ self.now }
        ensures utf8 { IsUtf8 self.now }
    {
        match &self.place {
            Place::Here(short) => short.as_str(),
            Place::There(shared) => shared.as_str(),
        }
    }

    /// The text followed by another. It copies the bytes of both once.
    pub fn followed_by(&self, alloc: Global, more: &Text) -> Mem<Text>
        ensures { IfOk result (λ t. t ≡ self.now ++ more.now) }
    {
        let mut text = String::new(alloc);
        text.reserve(self.as_str().len() + more.as_str().len())?;
        text.push_str(self.as_str())?;
        text.push_str(more.as_str())?;
        Text::from_string(text)
    }

    /// An equal text, at the cost of a few bytes or of counting one more owner. It takes no memory.
    pub fn copy(&self, _alloc: Global) -> Mem<Text>
        ensures { IfOk result (λ t. t ≡ self.now) }
    {
        Ok(Text {
            place: match &self.place {
                Place::Here(short) => Place::Here(short.copy()),
                Place::There(shared) => Place::There(shared.clone()?),
            },
        })
    }
}
