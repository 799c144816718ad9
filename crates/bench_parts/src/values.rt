//! A value of many records, which is read, weighed, copied and printed.
use crate::made::value;
use rooms_val::Mem;
use std::alloc::Global;
use std::mem;

/// A record as clients keep it: a map with texts, numbers, a list and maps inside.
const RECORD: &str =
    r#"{"id":"shape:000017","parent":"page:7","props":{"text":"Größe 17 \u2028 \"119\"","points":[{"x":17,"y":0,"z":true},{"x":18,"y":-1,"z":false},{"x":19,"y":-2,"z":false},{"x":20,"y":-3,"z":false}],"fill":null},"place":[17,[51,[85,[true,false]]]]}"#;

/// What is done with the value.
#[derive(Clone, Copy)]
pub(crate) enum OnValue {
    Read,
    Weigh,
    Copy,
    Print,
}

/// Reads a value from a text of about so many bytes, and does the call so many times. It returns what the value weighs.
pub(crate) fn do_on_value(call: OnValue, alloc: Global, bytes: u32, times: u32) -> Mem<i64> {
    let text = text_of(alloc, bytes)?;
    let mut val = value(alloc, text.as_str())?;
    // A compiler may weigh a value once for all rounds, but not two that change places.
    let mut twin = val.copy(alloc)?;
    let mut weight = val.weight();
    for _ in 0..times {
        match call {
            OnValue::Read => val = value(alloc, text.as_str())?,
            OnValue::Weigh => {
                mem::swap(&mut val, &mut twin);
                weight = val.weight();
            }
            OnValue::Copy => val = val.copy(alloc)?,
            OnValue::Print => drop(val.print(alloc)?),
        }
    }
    Ok(i64::try_from(weight).unwrap_or(i64::MAX))
}

/// A map as text, with as many records as make up so many bytes.
fn text_of(alloc: Global, bytes: u32) -> Mem<String> {
    let mut text = String::from_str(alloc, "{")?;
    for number in 0..bytes {
        if text.len() >= bytes as usize {
            break;
        }
        let comma = if number == 0 { "" } else { "," };
        text.push_str(format!(in alloc; r#"{comma}"shape:{number:06}":{RECORD}"#)?.as_str())?;
    }
    text.push_str("}")?;
    Ok(text)
}
