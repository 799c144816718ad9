//! Two rising lists gone through together.
ghost use Rattle.std.specs.Prelude.{◌≡◌, ◌+◌, ◌<◌, [], length, IfSome, IfNone};
ghost use Rattle.std.specs.Option.{option_copied};
ghost use Rattle.rooms_val.specs.Maps.{AreRising, IsTaken};

use rooms_val::Text;
use std::cmp::Ordering;

/// A key with what stands under it in each of two lists, and what is left of both.
#[derive(Drop)]
pub struct Taken<'a, A, B> {
    pub key: &'a Text,
    pub left: Option<&'a A>,
    pub right: Option<&'a B>,
    pub lefts: &'a [(Text, A)],
    pub rights: &'a [(Text, B)],
}

/// Takes the least key of two rising lists. `None` exactly where both are empty.
pub fn take_least<'a, A, B>(
    lefts: &'a [(Text, A)],
    rights: &'a [(Text, B)],
) -> Option<Taken<'a, A, B>>
    requires lefts_rise { AreRising lefts.now }
    requires rights_rise { AreRising rights.now }
    ensures none { IfNone result ((lefts.now ≡ []) × (rights.now ≡ [])) }
    ensures left { IfSome result
        (λ t. IsTaken t.key.now (option_copied t.left) lefts.now t.lefts.now) }
    ensures right { IfSome result
        (λ t. IsTaken t.key.now (option_copied t.right) rights.now t.rights.now) }
    ensures fewer { IfSome result
        (λ t. length t.lefts.now + length t.rights.now < length lefts.now + length rights.now) }
{
    let Some((left, later_lefts)) = lefts.split_first() else {
        let Some((right, later_rights)) = rights.split_first() else {
            return None;
        };
        return Some(Taken {
            key: &right.0,
            left: None,
            right: Some(&right.1),
            lefts,
            rights: later_rights,
        });
    };
    let only_left = Taken {
        key: &left.0,
        left: Some(&left.1),
        right: None,
        lefts: later_lefts,
        rights,
    };
    let Some((right, later_rights)) = rights.split_first() else {
        return Some(only_left);
    };
    match left.0.as_str().cmp(&right.0.as_str()) {
        Ordering::Less => Some(only_left),
        Ordering::Equal => Some(Taken {
            key: &left.0,
            left: Some(&left.1),
            right: Some(&right.1),
            lefts: later_lefts,
            rights: later_rights,
        }),
        Ordering::Greater => Some(Taken {
            key: &right.0,
            left: None,
            right: Some(&right.1),
            lefts,
            rights: later_rights,
        }),
    }
}
