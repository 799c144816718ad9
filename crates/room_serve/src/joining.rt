//! How a client names its room.
ghost use Rattle.std.specs.Prelude.{◌≡◌, ◌<◌, IfSome};
ghost use Rattle.room_link.specs.Exchange.{Tells};
ghost use Rattle.room_serve.specs.Accounts.{nothing, IsBlamed, IsOpen};
ghost use Rattle.room_serve.specs.Joining.{Joins, Names};

use crate::account::Account;
use link_texts::{Join, Unheard};
use room_link::link::Link;
use room_link::passing::Incoming;
use std::alloc::Global;
use std::sync::Wait;

// Waits for the text that names a room, one of so many: that, unless the link ends, a call fails, or the text is
// refused.
pub(crate) fn wait_for_join<R: Wait, K: Link>(
    rt: &R,
    alloc: Global,
    rooms: u32,
    link: &mut K,
    account: &mut Account,
) -> Option<Join>
    requires new { account.old ≡ nothing }
    ensures open { IfSome result (λ join. IsOpen account.new) }
    ensures there { IfSome result (λ join. join.room < rooms) }
    ensures blamed { IsBlamed account.old.fault account.new.fault
        (K.faults link.old) (K.faults link.new) }
    ensures joins { Tells (Joins rooms result account.new) (K.told link.old) (K.told link.new) }
{
    'idles: for _ in rt.forever() {
        match link.next() {
            Ok(Incoming::Text(bytes)) => return join(alloc, rooms, link, account, &bytes),
            Ok(Incoming::Idle) => {}
            Ok(Incoming::End) => return None,
            Err(stop) => {
                account.stop(stop);
                return None;
            }
        }
    }
    unreachable!()
}

// The join of the first text, unless that is refused.
fn join<K: Link>(
    alloc: Global,
    rooms: u32,
    link: &mut K,
    account: &mut Account,
    bytes: &[u8],
) -> Option<Join>
    requires new { account.old ≡ nothing }
    ensures open { IfSome result (λ join. IsOpen account.new) }
    ensures there { IfSome result (λ join. join.room < rooms) }
    ensures blamed { IsBlamed account.old.fault account.new.fault
        (K.faults link.old) (K.faults link.new) }
    ensures names { Tells (Names rooms bytes.now result account.new)
        (K.told link.old) (K.told link.new) }
{
    account.count();
    match Join::read(alloc, bytes, rooms) {
        Ok(join) => Some(join),
        Err(Unheard::Refused(wire)) => {
            account.refuse(link, wire);
            None
        }
        Err(Unheard::OutOfMemory) => {
            account.memory = true;
            None
        }
    }
}
