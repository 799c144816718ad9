//! What is wrong with the keys of a message.
ghost use Rattle.std.specs.Prelude.{◌≡◌, map, codes, [], ◌∷◌};
ghost use Rattle.wire_msgs.specs.Keys.{keys_fault, lacks_one, is_listed, has_other};
ghost use Rattle.wire_msgs.specs.Types.{client_keys, server_keys};

use crate::fault::MsgFault;
use crate::types::{ClientType, ServerType};
use rooms_val::Fields;

/// The fault of the keys of a client's message, if any.
pub(crate) fn client_fault(kind: ClientType, fields: &Fields) -> Option<MsgFault>
    ensures { result ≡ keys_fault (client_keys kind) fields.now }
{
    match kind {
        ClientType::Connect => keys_fault(
            fields,
            &[
                "connectRequestId",
                "lastServerClock",
                "protocolVersion",
                "schema",
                "type",
            ],
            &[],
        ),
        ClientType::Push => keys_fault(fields, &["clientClock", "type"], &["diff", "presence"]),
        ClientType::Ping => keys_fault(fields, &["type"], &[]),
    }
}

/// The fault of the keys of a room's message, if any.
pub(crate) fn server_fault(kind: ServerType, fields: &Fields) -> Option<MsgFault>
    ensures { result ≡ keys_fault (server_keys kind) fields.now }
{
    match kind {
        ServerType::Connect => keys_fault(
            fields,
            &[
                "connectRequestId",
                "diff",
                "hydrationType",
                "isReadonly",
                "protocolVersion",
                "schema",
                "serverClock",
                "type",
            ],
            &[],
        ),
        ServerType::Data => keys_fault(fields, &["data", "type"], &[]),
        ServerType::Pong => keys_fault(fields, &["type"], &[]),
    }
}

// The fault of keys of which some are wanted and some allowed beside: a missing one comes before
// one too many.
fn keys_fault(fields: &Fields, wanted: &[&str], allowed: &[&str]) -> Option<MsgFault>
    ensures { result ≡ keys_fault (record {
      wanted = map (λ k. k.now) wanted.now;
      allowed = map (λ k. k.now) allowed.now;
    }) fields.now }
{
    if lacks_one(fields, wanted) {
        return Some(MsgFault::MissingField);
    }
    if has_other(fields, wanted, allowed) {
        return Some(MsgFault::ExtraField);
    }
    None
}

// Whether a map lacks one of the keys.
fn lacks_one(fields: &Fields, keys: &[&str]) -> bool
    ensures { result ≡ lacks_one (map (λ k. k.now) keys.now) fields.now }
{
    for key in keys {
        if fields.get(key).is_none() {
            return true;
        }
    }
    false
}

// Whether a map has a key that is neither wanted nor allowed.
fn has_other(fields: &Fields, wanted: &[&str], allowed: &[&str]) -> bool
    ensures { result ≡ has_other (map (λ k. k.now) wanted.now) (map (λ k. k.now) allowed.now)
        fields.now }
{
    for entry in fields.as_slice() {
        let key = entry.0.as_str();
        if !is_listed(wanted, key) && !is_listed(allowed, key) {
            return true;
        }
    }
    false
}

// Whether a key is one of the list.
fn is_listed(keys: &[&str], key: &str) -> bool
    ensures { result ≡ is_listed (map (λ k. k.now) keys.now) key.now }
{
    for listed in keys {
        if *listed == key {
            return true;
        }
    }
    false
}
