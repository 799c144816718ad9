//! Entries that rise by their keys.
ghost use Rattle.std.specs.Prelude.{◌≡◌, option_map};
ghost use Rattle.std.specs.Result.{result_err};
ghost use Rattle.rooms_val.specs.Maps.{AreRising, keys_of};
ghost use Rattle.record_valid.specs.Parts.{lacks, behind};
ghost use Rattle.record_valid.specs.Faults.{keys_fault};

use crate::reject::RejectKind;
use rooms_val::Text;

/// The entries behind the one with the key. `None` where the key isn't among them.
fn behind<'a, V>(entries: &'a [(Text, V)], key: &str) -> Option<&'a [(Text, V)]>
    ensures { option_map (λ rest. rest.now) result ≡ behind entries.now key.now }
{
    for (place, (other, _)) in entries.iter().enumerate() {
        if other.as_str() == key {
            return Some(&entries[place + 1..]);
        }
    }
    None
}

/// Whether some key that is wanted isn't among those given, found in one pass over both.
fn lacks<W, G>(wanted: &[(Text, W)], given: &[(Text, G)]) -> bool
    requires wanted { AreRising wanted.now }
    requires given { AreRising given.now }
    ensures { result ≡ lacks (keys_of wanted.now) (keys_of given.now) }
{
    let mut rest = given;
    for (key, _) in wanted {
        match behind(rest, key.as_str()) {
            Some(entries) => rest = entries,
            None => return true,
        }
    }
    false
}

/// Tells whether the keys are the same, and if not whether one is missing or else too many. Where none is missing, the
/// numbers of keys tell whether there are too many.
pub(crate) fn check_keys<W, G>(wanted: &[(Text, W)], given: &[(Text, G)]) -> Result<(), RejectKind>
    requires wanted { AreRising wanted.now }
    requires given { AreRising given.now }
    ensures { result_err result ≡ keys_fault (keys_of wanted.now) (keys_of given.now) }
{
    if lacks(wanted, given) {
        return Err(RejectKind::Missing);
    }
    if wanted.len() < given.len() {
        return Err(RejectKind::Extra);
    }
    Ok(())
}
