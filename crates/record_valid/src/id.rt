//! Ids of records: the name of a type, `:` and a unique part.
ghost use Rattle.std.specs.Prelude.{◌≡◌, option_map};
ghost use Rattle.std.specs.List.{list_all};
ghost use Rattle.record_valid.specs.Ids.{is_unique_byte, is_unique, type_part};

/// Whether the byte is one of `A-Z a-z 0-9 _ -`.
fn is_unique_byte(byte: u8) -> bool
    ensures { result ≡ is_unique_byte byte }
{
    byte.is_ascii_alphanumeric() || byte == b'_' || byte == b'-'
}

/// Whether each byte is one of these.
fn are_unique_bytes(bytes: &[u8]) -> bool
    ensures { result ≡ list_all is_unique_byte bytes.now }
{
    bytes.iter().all(|byte| is_unique_byte(*byte))
}

/// Whether the text is 1 to 64 characters of `A-Z a-z 0-9 _ -`.
fn is_unique(part: &str) -> bool
    ensures { result ≡ is_unique part.now }
{
    !part.is_empty() && part.len() <= 64 && are_unique_bytes(part.as_bytes())
}

/// The name of the type in an id: what stands before its only `:`. `None` exactly where the text is no id.
///
/// An id is a type's name, which isn't empty and has no `:`, then `:`, then 1 to 64 characters of `A-Z a-z 0-9 _ -`.
pub fn id_type(id: &str) -> Option<&str>
    ensures { option_map (λ name. name.now) result ≡ type_part id.now }
{
    let (name, unique) = id.split_once(':')?;
    if name.is_empty() || !is_unique(unique) {
        return None;
    }
    Some(name)
}
