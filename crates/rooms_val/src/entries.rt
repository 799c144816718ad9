//! Vectors of keys with anything, in the order of their keys: how maps of each kind are kept.
ghost use Rattle.std.specs.Prelude.{◌≡◌, IfOk, IfErr, OnOk, OnErr, option_map};
ghost use Rattle.rooms_val.specs.Maps.{AreRising, value_at, with_key, without_key};
ghost use Rattle.rooms_val.specs.Places.{IsPlace, IsGap};

use crate::memory::Mem;
use crate::text::Text;
use std::mem;

// Among how many keys at most one is found sooner by looking at each than by a search.
const FEW: usize = 16;

/// What stands under a key. `None` exactly if the key is absent. It costs a logarithm of the length; among at most 16
/// keys each is looked at.
pub fn get<'a, V>(entries: &'a [(Text, V)], key: &str) -> Option<&'a V>
    requires { AreRising entries.now }
    ensures { option_map (λ v. v.now) result ≡ value_at entries.now key.now }
{
    if entries.len() <= FEW {
        return first_at(entries, key);
    }
    match place_of(entries, key) {
        Ok(place) => Some(&entries[place].1),
        Err(_) => None,
    }
}

// What stands first under a key. Texts of different lengths differ at once, and others by words.
fn first_at<'a, V>(entries: &'a [(Text, V)], key: &str) -> Option<&'a V>
    ensures { option_map (λ v. v.now) result ≡ value_at entries.now key.now }
{
    'entries: for (text, val) in entries {
        if text.as_str() == key {
            return Some(val);
        }
    }
    None
}

/// Sets what stands under a key, and returns what stood there before. Where memory is refused nothing changes. A key
/// beyond all others is added at the cost of one comparison; any other costs up to a move of the keys after it.
pub fn put<V: Drop>(entries: &mut Vec<(Text, V)>, key: Text, new: V) -> Mem<Option<V>>
    requires { AreRising entries.old.items }
    ensures old { IfOk result (λ v. v ≡ value_at entries.old.items key) }
    ensures ok { OnOk result (entries.new.items ≡ with_key entries.old.items key new) }
    ensures err { OnErr result (entries.new.items ≡ entries.old.items) }
{
    match place_to_put(entries, key.as_str()) {
        Ok(place) => Ok(Some(mem::replace(&mut entries[place].1, new))),
        Err(place) => {
            entries.insert(place, (key, new))?;
            Ok(None)
        }
    }
}

/// Takes a key away, and returns what stood there. `None` exactly if the key is absent. It costs up to a move of
/// the keys after it.
pub fn take<V: Drop>(entries: &mut Vec<(Text, V)>, key: &str) -> Option<V>
    requires { AreRising entries.old.items }
    ensures old { result ≡ value_at entries.old.items key.now }
    ensures rest { entries.new.items ≡ without_key entries.old.items key.now }
{
    match place_of(entries, key) {
        Ok(place) => Some(entries.remove(place).1),
        Err(_) => None,
    }
}

/// Where the key stands, or where it would go. It costs a logarithm of the length.
pub fn place_of<V>(entries: &[(Text, V)], key: &str) -> Result<usize, usize>
    requires { AreRising entries.now }
    ensures found { IfOk result (IsPlace entries.now key.now) }
    ensures absent { IfErr result (IsGap entries.now key.now) }
{
    entries.binary_search_by(|entry| entry.0.as_str().cmp(&key))
}

// The same, where a key beyond all others is found out first.
fn place_to_put<V>(entries: &[(Text, V)], key: &str) -> Result<usize, usize>
    requires { AreRising entries.now }
    ensures found { IfOk result (IsPlace entries.now key.now) }
    ensures absent { IfErr result (IsGap entries.now key.now) }
{
    match entries.last() {
        Some(last) if last.0.as_str() < key => Err(entries.len()),
        _ => place_of(entries, key),
    }
}
