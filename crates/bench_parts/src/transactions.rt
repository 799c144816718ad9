//! An atom with a list of ids that is written many times in one transaction, and such lists that are only held.
use crate::made::id_of;
use rooms_val::{Mem, OutOfMemory, Text};
use signal_txn::Txn;
use std::alloc::Global;
use tl_rules::{Ids, TlKey, TlRules, TlValue};

/// Writes an atom of so many ids so many times in one transaction, and commits it. It returns how often the atom changed.
pub(crate) fn write_times(alloc: Global, size: u32, times: u32) -> Mem<i64> {
    let mut txn = Txn::new(alloc, TlRules)?;
    write_all(alloc, &mut txn, size, times)
}

/// The same in a graph without an open transaction.
fn write_all(alloc: Global, txn: &mut Txn<TlRules>, size: u32, times: u32) -> Mem<i64> {
    if txn.begin(alloc).is_err() {
        return Err(OutOfMemory);
    }
    for call in 0..times {
        write(alloc, txn, list(alloc, size, call)?)?;
    }
    if txn.depth() > 0 {
        txn.commit();
    }
    Ok(i64::try_from(txn.epoch()).unwrap_or(i64::MAX))
}

/// The children of a page are these.
fn write(alloc: Global, txn: &mut Txn<TlRules>, ids: Ids) -> Mem<()> {
    let key = TlKey::ByParent(Text::of(alloc, "page:p")?);
    if key.rank() == 0 {
        txn.set(alloc, key, TlValue::Ids(ids))?;
    }
    Ok(())
}

/// Holds so many lists of so many ids. It returns how many there are.
pub(crate) fn hold_times(alloc: Global, size: u32, times: u32) -> Mem<i64> {
    let mut lists = Vec::new(alloc);
    for call in 0..times {
        lists.push(list(alloc, size, call)?)?;
    }
    Ok(i64::try_from(lists.len()).unwrap_or(i64::MAX))
}

/// A list of so many ids, the first of which is that of the call.
fn list(alloc: Global, size: u32, call: u32) -> Mem<Ids> {
    let mut ids = Vec::new(alloc);
    for number in 0..size {
        let number = if number == 0 { call } else { number };
        ids.push(id_of(alloc, "shape", number)?)?;
    }
    Ids::of(alloc, ids)
}
