//! Messages that a peer refuses: what it shows, what its views have told and its marks are as before, and it takes a good
//! message afterwards. And what a peer makes of a record that isn't admitted.
ghost use Rattle.std.specs.Prelude.{◌≡◌, ◌<◌};

use crate::calls::message;
use crate::messages::{diff, first, message_text};
use crate::scripts::{difference, is_shown};
use live_views::WatchId;
use rooms_val::{Steps, Text, Val};
use side_effects::EditFault;
use std::alloc::Global;
use std::marker::Brand;
use std::process::Abort;
use std::sync::ledger::{Blank, Ledger};
use std::test::Fail;
use sync_peer::Peer;
use test_with_boards::board_text;
use test_with_cases::{cells, rows, val_text, value};
use view_vals::read_view;

/// The newest version of the tables.
const VERSION: u32 = 3;

/// Calls of a peer, what each answers, and what the peer shows then, where that is new.
const REFUSALS: &str = r#"
# On a connection, with a mark and one pending edit behind it.
connect 4 | connect 4 -1
take answer 4 wipe_all 3 {"page:p":["put",$P]} | taken | 3 owes 0: {"page:p":$P}
watch {"count":"page:p"} | 0
told | 0 is 0
mark m | done
edit {"shape:a":["put",$G(a,a0,0)]} | done | 3 owes 1: {"page:p":$P,"shape:a":$G(a,a0,0)}
told | 0 is 1
push | push 1 {"shape:a":["put",$G(a,a0,0)]}
take answer 4 wipe_all 9 {} | NotOpen
told | nothing
take data commit 4 9 | WrongPending(1, 9)
told | nothing
take data patch 2 {"page:p":["remove"]} | ClockBack(3, 2)
told | nothing
take data patch 4 {"shape:b":["put",$G(b,a1,0)]} | taken | 4 owes 1: {"page:p":$P,"shape:a":$G(a,a0,0),"shape:b":$G(b,a1,0)}
told | 0 is 2
take data commit 5 1 | taken | 5 owes 0: {"page:p":$P,"shape:a":$G(a,a0,0),"shape:b":$G(b,a1,0)}
bail m | done | 5 owes 1: {"page:p":$P,"shape:b":$G(b,a1,0)}
bail m | NoMark
told | 0 is 1
# The same where nothing is pending.
new | done | -1 owes 0: {}
edit {"page:p":["put",$P]} | done | -1 owes 1: {"page:p":$P}
mark m | done
edit {"shape:a":["put",$G(a,a0,0)]} | done | -1 owes 2: {"page:p":$P,"shape:a":$G(a,a0,0)}
watch {"tree":"page:p"} | 0
told | 0 is ["shape:a"]
connect 4 | connect 4 -1
take answer 4 wipe_all 1 {} | taken | 1 owes 2: {"page:p":$P,"shape:a":$G(a,a0,0)}
push | push 1 {"page:p":["put",$P]}
push | push 2 {"shape:a":["put",$G(a,a0,0)]}
take data commit 2 1; commit 3 2 | taken | 3 owes 0: {"page:p":$P,"shape:a":$G(a,a0,0)}
take data discard 4 1 | NoPending(1)
told | nothing
take data patch 4 {} | taken | 4 owes 0: {"page:p":$P,"shape:a":$G(a,a0,0)}
bail m | done | 4 owes 1: {"page:p":$P}
told | 0 is []
# The same while a request is asked.
new | done | -1 owes 0: {}
watch {"count":"page:p"} | 0
mark m | done
edit {"page:p":["put",$P]} | done | -1 owes 1: {"page:p":$P}
told | 0 is 0
connect 4 | connect 4 -1
take answer 5 wipe_all 3 {"shape:a":["put",$G(a,a0,0)]} | WrongRequest
told | nothing
take answer 4 wipe_all 3 {"shape:a":["put",$G(a,a0,0)]} | taken | 3 owes 1: {"page:p":$P,"shape:a":$G(a,a0,0)}
told | 0 is 1
bail m | done | 3 owes 2: {"shape:a":$G(a,a0,0)}
"#;

/// A record that isn't admitted comes by an answer, and again by an undo. What is patched in it has to leave it admitted.
const NOT_ADMITTED: &str = r#"
# A text is no x, and a put acts all the same.
connect 4 | connect 4 -1
take answer 4 wipe_all 3 {"page:p":["put",$P],"shape:a":["put",$G(a,a0,"no")]} | taken | 3 owes 0: {"page:p":$P,"shape:a":$G(a,a0,"no")}
edit {"shape:a":["remove"]} | done | 3 owes 1: {"page:p":$P}
undo | true | 3 owes 2: {"page:p":$P,"shape:a":$G(a,a0,"no")}
# Its opacity may be 50, but not while its x is a text.
edit {"shape:a":["patch",{"opacity":["put",50]}]} | Invalid shape:a
edit {"shape:a":["patch",{"x":["put",7]}]} | done | 3 owes 3: {"page:p":$P,"shape:a":$G(a,a0,7)}
# The undo would patch the text back, which is passed over. So the redo of that does nothing.
undo | true | 3 owes 4: {"page:p":$P,"shape:a":$G(a,a0,7)}
undo | false
redo | true
edit {"shape:a":["patch",{"opacity":["put",50]}]} | done | 3 owes 5: {"page:p":$P,"shape:a":$G(a,a0,7,50)}
"#;

// The line isn't borrowed as a `str`, since the ledger couldn't be picked at such a call.
fn call_in<L: Ledger>(
    blank: Blank,
    alloc: Global,
    peer: &mut Peer,
    line: &Text,
) -> Result<String, Fail>
    requires name { blank.name ≡ L.name }
    requires parts { blank.parts ≡ L.parts }
    requires some { 0 < blank.parts }
{
    let mut steps = Steps::<L>::new(blank);
    let (verb, rest) = first(line.as_str());
    match verb {
        "edit" => edit(alloc, peer, rest, &mut steps),
        "take" => take(alloc, peer, rest, &mut steps),
        "undo" => Ok(format!(in alloc; "{}", peer.undo(alloc, &mut steps)?)?),
        "redo" => Ok(format!(in alloc; "{}", peer.redo(alloc, &mut steps)?)?),
        "bail" => bail(alloc, peer, rest, &mut steps),
        "told" => news(alloc, peer, &mut steps),
        _ => Err(Fail::from("no call")),
    }
}

/// Does a call by its line, and answers the text of what it gives. The steps are counted for nobody.
fn call(alloc: Global, peer: &mut Peer, line: &str) -> Result<String, Fail> {
    let (verb, rest) = first(line);
    match verb {
        "new" => renew(alloc, peer),
        "connect" => connect(alloc, peer, rest),
        "watch" => watch(alloc, peer, rest),
        "mark" => mark(alloc, peer, rest),
        "push" => push(alloc, peer),
        _ => call_in::<Brand>(Blank::new(1), alloc, peer, &Text::of(alloc, line)?),
    }
}

/// A peer that did nothing.
fn new_peer(alloc: Global) -> Result<Peer, Fail> {
    Ok(Peer::new(alloc, VERSION)?)
}

/// Begins anew.
fn renew(alloc: Global, peer: &mut Peer) -> Result<String, Fail> {
    *peer = new_peer(alloc)?;
    Ok(String::from_str(alloc, "done")?)
}

/// Asks to be connected, and answers what is said.
fn connect(alloc: Global, peer: &mut Peer, request: &str) -> Result<String, Fail> {
    message_text(alloc, &peer.connect(alloc, request.parse::<u64>()?)?)
}

/// Watches a view, and answers the watch's number.
fn watch(alloc: Global, peer: &mut Peer, view: &str) -> Result<String, Fail> {
    let view = read_view(alloc, &value(alloc, view)?)?;
    let number = peer.watch(alloc, &view)?.number;
    Ok(format!(in alloc; "{number}")?)
}

/// Makes a mark.
fn mark(alloc: Global, peer: &mut Peer, name: &str) -> Result<String, Fail> {
    peer.mark(Text::of(alloc, name)?)?;
    Ok(String::from_str(alloc, "done")?)
}

/// The next push.
fn push(alloc: Global, peer: &mut Peer) -> Result<String, Fail> {
    match peer.next_push(alloc)? {
        Some(message) => message_text(alloc, &message),
        None => Ok(String::from_str(alloc, "none")?),
    }
}

/// Does an edit, and answers the fault if there is one, with the id of a record that isn't admitted.
fn edit<L: Ledger>(
    alloc: Global,
    peer: &mut Peer,
    text: &str,
    steps: &mut Steps<L>,
) -> Result<String, Fail> {
    let edit = diff(alloc, text)?;
    match peer.edit(alloc, &edit, steps) {
        Ok(()) => Ok(String::from_str(alloc, "done")?),
        Err(EditFault::Invalid(id, _)) => Ok(format!(in alloc; "Invalid {}", id.as_str())?),
        Err(fault) => Ok(format!(in alloc; "{fault:?}")?),
    }
}

/// Takes a message, and answers the fault if there is one.
fn take<L: Ledger>(
    alloc: Global,
    peer: &mut Peer,
    text: &str,
    steps: &mut Steps<L>,
) -> Result<String, Fail> {
    let message = message(alloc, text)?;
    match peer.take(alloc, &message, steps) {
        Ok(()) => Ok(String::from_str(alloc, "taken")?),
        Err(fault) => Ok(format!(in alloc; "{fault:?}")?),
    }
}

/// Takes back what was done since a mark, and answers the fault if there is one.
fn bail<L: Ledger>(
    alloc: Global,
    peer: &mut Peer,
    name: &str,
    steps: &mut Steps<L>,
) -> Result<String, Fail> {
    match peer.bail(alloc, name, steps) {
        Ok(()) => Ok(String::from_str(alloc, "done")?),
        Err(fault) => Ok(format!(in alloc; "{fault:?}")?),
    }
}

/// What the watched views tell that is new, or `nothing`.
fn news<L: Ledger>(alloc: Global, peer: &mut Peer, steps: &mut Steps<L>) -> Result<String, Fail> {
    let told = peer.told(alloc, steps)?;
    if told.is_empty() {
        return Ok(String::from_str(alloc, "nothing")?);
    }
    told_text(alloc, &told)
}

/// The number of each watch, and what it tells.
fn told_text(alloc: Global, told: &[(WatchId, Val)]) -> Result<String, Fail> {
    let mut text = String::new(alloc);
    for (watch, value) in told {
        let value = val_text(alloc, value)?;
        let part = format!(in alloc; "{} is {value}", watch.number)?;
        text.push_str(part.as_str())?;
    }
    Ok(text)
}

/// What a peer has: the clock, how much is owed, and its document.
fn peer_text(alloc: Global, peer: &Peer) -> Result<String, Fail> {
    let clock = peer.reached();
    let owed = peer.owed();
    let document = val_text(alloc, &peer.document(alloc)?)?;
    Ok(format!(in alloc; "{clock} owes {owed}: {document}")?)
}

/// Does the calls of a script over a new peer: the first that gives or shows something else, with that.
fn difference_in(alloc: Global, script: &str) -> Result<Option<String>, Fail> {
    let mut peer = new_peer(alloc)?;
    difference_over(alloc, &mut peer, script)
}

/// The same over a peer that is there.
fn difference_over(alloc: Global, peer: &mut Peer, script: &str) -> Result<Option<String>, Fail> {
    let mut now = peer_text(alloc, peer)?;
    for row in &rows(alloc, script)? {
        if let Some(difference) = difference_at(alloc, peer, row, &mut now)? {
            return Ok(Some(difference));
        }
    }
    Ok(None)
}

/// Does the call of a row over a peer that shows `now`, which is what it shows afterwards then.
fn difference_at(
    alloc: Global,
    peer: &mut Peer,
    row: &str,
    now: &mut String,
) -> Result<Option<String>, Fail> {
    let [line, wanted, after, ..] = cells(row);
    let gives = call(alloc, peer, line)?;
    if gives.as_str() != wanted {
        return difference(alloc, row, gives.as_str());
    }
    let shows = peer_text(alloc, peer)?;
    if !is_shown(shows.as_str(), after, now.as_str()) {
        return difference(alloc, row, shows.as_str());
    }
    *now = shows;
    Ok(None)
}

#[test]
fn peers_are_as_before_a_message_that_they_refuse(rt: HostRuntime) -> Result<(), Fail> {
    let script = board_text(rt.alloc(), REFUSALS)?;
    if let Some(difference) = difference_in(rt.alloc(), script.as_str())? {
        assert_eq!(&rt; difference.as_str(), "");
    }
    Ok(())
}

#[test]
fn peers_patch_what_is_not_admitted_only_to_what_is(rt: HostRuntime) -> Result<(), Fail> {
    let script = board_text(rt.alloc(), NOT_ADMITTED)?;
    if let Some(difference) = difference_in(rt.alloc(), script.as_str())? {
        assert_eq!(&rt; difference.as_str(), "");
    }
    Ok(())
}
