//! Scripts of calls: in each row a call, what it answers, and what the client shows afterwards, where that is new.
use crate::calls::{call, client_text};
use crate::client::{Client, new_client};
use std::alloc::Global;
use std::process::Abort;
use std::test::Fail;
use test_with_cases::{cells, rows};

/// Does the calls of a script over a new client: the first that gives or shows something else, with that.
fn difference_in(alloc: Global, script: &str) -> Result<Option<String>, Fail> {
    let mut client = new_client(alloc)?;
    let mut now = client_text(alloc, &client)?;
    for row in &rows(alloc, script)? {
        if let Some(difference) = difference_at(alloc, &mut client, row, &mut now)? {
            return Ok(Some(difference));
        }
    }
    Ok(None)
}

/// Does the call of a row over a client that shows `now`, which is what it shows afterwards then.
fn difference_at(
    alloc: Global,
    client: &mut Client,
    row: &str,
    now: &mut String,
) -> Result<Option<String>, Fail> {
    let [line, wanted, after, ..] = cells(row);
    let told = call(alloc, client, line)?;
    if told.as_str() != wanted {
        return difference(alloc, row, told.as_str());
    }
    let found = client_text(alloc, client)?;
    if !is_shown(found.as_str(), after, now.as_str()) {
        return difference(alloc, row, found.as_str());
    }
    *now = found;
    Ok(None)
}

/// Whether a client shows what a row says, which is the same as before where the row says nothing.
pub(crate) fn is_shown(now: &str, wanted: &str, before: &str) -> bool {
    if wanted.is_empty() {
        now == before
    } else {
        now == wanted
    }
}

/// What a row gives in place of what it says.
pub(crate) fn difference(alloc: Global, row: &str, found: &str) -> Result<Option<String>, Fail> {
    Ok(Some(format!(in alloc; "{found} at {row}")?))
}

/// Each refusal, and a good message after it.
const REFUSALS: &str = r#"
# Without a connection nothing is taken.
take pong | NotOpen
take data patch 1 {} | NotOpen
take answer 4 wipe_all 3 {} | NotOpen
edit {"note:a":["put",{"id":"note:a","typeName":"note","x":1}]} | {"note:a":["remove"]} | -1 owes 1: note:a=1
push | none
connect 4 | connect 4 -1
# While it asks, the answer to its request is, and nothing else.
connect 5 | AlreadyOpen
take pong | NotOpen
take data patch 4 {} | NotOpen
push | none
take answer 5 wipe_all 3 {} | WrongRequest
take answer 4 wipe_all 3 {"note:b":["put",{"id":"note:b","typeName":"note","x":2}]} | taken | 3 owes 1: note:a=1 note:b=2
# On a connection no answer is.
connect 4 | AlreadyOpen
take answer 4 wipe_all 3 {} | NotOpen
take pong | taken
# A result ends a push.
take data commit 4 1 | NoPending(1)
push | push 1 {"note:a":["put",{"id":"note:a","typeName":"note","x":1}]}
push | none
take data commit 4 9 | WrongPending(1, 9)
take data patch 2 {} | ClockBack(3, 2)
take data patch 3 {"note:b":["patch",{"x":["put",3]}]} | taken | 3 owes 1: note:a=1 note:b=3
take data commit 2 1 | ClockBack(3, 2)
take data commit 4 1 | taken | 4 owes 0: note:a=1 note:b=3
take data commit 5 1 | NoPending(1)
take data commit 5 2 | NoPending(2)
take data patch 5 {"note:b":["remove"]} | taken | 5 owes 0: note:a=1
"#;

/// The first event at fault decides, and the held clock moves with each event.
const ORDER: &str = r#"
edit {"note:a":["put",{"id":"note:a","typeName":"note","x":1}]} | {"note:a":["remove"]} | -1 owes 1: note:a=1
edit {"note:b":["put",{"id":"note:b","typeName":"note","x":2}]} | {"note:b":["remove"]} | -1 owes 2: note:a=1 note:b=2
edit {"note:c":["put",{"id":"note:c","typeName":"note","x":3}]} | {"note:c":["remove"]} | -1 owes 3: note:a=1 note:b=2 note:c=3
connect 4 | connect 4 -1
take answer 4 wipe_all 3 {} | taken | 3 owes 3: note:a=1 note:b=2 note:c=3
push | push 1 {"note:a":["put",{"id":"note:a","typeName":"note","x":1}]}
push | push 2 {"note:b":["put",{"id":"note:b","typeName":"note","x":2}]}
# The held clock is that of the event before.
take data patch 5 {}; patch 4 {} | ClockBack(5, 4)
take data commit 5 1; commit 4 2 | ClockBack(5, 4)
take data patch 4 {"note:d":["put",{"id":"note:d","typeName":"note","x":4}]}; patch 5 {"note:d":["put",{"id":"note:d","typeName":"note","x":5}]}; commit 4 1 | ClockBack(5, 4)
# The first event at fault.
take data patch 2 {}; commit 4 9 | ClockBack(3, 2)
take data commit 4 9; patch 2 {} | WrongPending(1, 9)
take data commit 4 1; patch 3 {}; commit 5 9 | ClockBack(4, 3)
take data commit 4 1; commit 5 9; patch 2 {} | WrongPending(2, 9)
take data commit 4 1; commit 5 1 | WrongPending(2, 1)
take data commit 4 1; commit 5 2; commit 6 3; patch 2 {} | NoPending(3)
# Of one event the first cause.
take data commit 2 9 | WrongPending(1, 9)
take data commit 4 1; commit 5 2; commit 2 3 | NoPending(3)
# Nothing of a refused message was done.
take data commit 4 1; patch 4 {"note:d":["put",{"id":"note:d","typeName":"note","x":4}]}; discard 5 2 | taken | 5 owes 1: note:a=1 note:c=3 note:d=4
take data commit 6 3 | NoPending(3)
push | push 3 {"note:c":["put",{"id":"note:c","typeName":"note","x":3}]}
take data commit 6 3 | taken | 6 owes 0: note:a=1 note:c=3 note:d=4
"#;

/// By which reason a client may not connect again.
const ENDS: &str = r#"
connect 1 | connect 1 -1
ended INVALID_RECORD | done
connect 2 | Refused(InvalidRecord)
edit {"note:a":["put",{"id":"note:a","typeName":"note","x":1}]} | {"note:a":["remove"]} | -1 owes 1: note:a=1
connect 2 | Refused(InvalidRecord)
new | done | -1 owes 0:
connect 1 | connect 1 -1
ended CLIENT_TOO_OLD | done
connect 2 | Refused(ClientTooOld)
new | done
connect 1 | connect 1 -1
ended SERVER_TOO_OLD | done
connect 2 | Refused(ServerTooOld)
new | done
connect 1 | connect 1 -1
ended ROOM_FULL | done
connect 2 | Refused(RoomFull)
# Nothing is refused to one that was slow.
new | done
connect 1 | connect 1 -1
take answer 1 wipe_all 3 {"note:a":["put",{"id":"note:a","typeName":"note","x":1}]} | taken | 3 owes 0: note:a=1
ended SLOW | done
take pong | NotOpen
connect 2 | connect 2 3
take answer 2 wipe_all 9 {"note:b":["put",{"id":"note:b","typeName":"note","x":2}]} | taken | 9 owes 0: note:b=2
"#;

/// What stays where the connection is lost.
const LOSSES: &str = r#"
edit {"note:a":["put",{"id":"note:a","typeName":"note","x":1}]} | {"note:a":["remove"]} | -1 owes 1: note:a=1
# A presence is pending on a connection alone.
presence {"id":"pointer:me","typeName":"pointer","x":1} | set
connect 4 | connect 4 -1
lost | done
connect 5 | connect 5 -1
take answer 4 wipe_all 3 {} | WrongRequest
take answer 5 wipe_all 3 {"pointer:b":["put",{"id":"pointer:b","typeName":"pointer","x":2}]} | taken | 3 owes 2: note:a=1 pointer:b=2
push | push 1 {"note:a":["put",{"id":"note:a","typeName":"note","x":1}]}
push | push 2 ["put",{"id":"pointer:me","typeName":"pointer","x":1}]
edit {"note:b":["put",{"id":"note:b","typeName":"note","x":2}]} | {"note:b":["remove"]} | 3 owes 3: note:a=1 note:b=2 pointer:b=2
presence {"id":"pointer:me","typeName":"pointer","x":5} | set | 3 owes 4: note:a=1 note:b=2 pointer:b=2
# The edits stay, no presence does, of nobody.
lost | done | 3 owes 2: note:a=1 note:b=2
push | none
take data commit 4 1 | NotOpen
connect 6 | connect 6 3
take answer 6 wipe_presence 3 {"pointer:b":["put",{"id":"pointer:b","typeName":"pointer","x":3}]} | taken | 3 owes 3: note:a=1 note:b=2 pointer:b=3
# All is pushed again, its own presence last, and the numbers go on.
push | push 3 {"note:a":["put",{"id":"note:a","typeName":"note","x":1}]}
take data commit 4 1 | WrongPending(3, 1)
push | push 4 {"note:b":["put",{"id":"note:b","typeName":"note","x":2}]}
push | push 5 ["put",{"id":"pointer:me","typeName":"pointer","x":5}]
push | none
take data commit 4 3; commit 5 4; commit 6 5 | taken | 6 owes 0: note:a=1 note:b=2 pointer:b=3
# The same where the room ends the session.
edit {"note:c":["put",{"id":"note:c","typeName":"note","x":3}]} | {"note:c":["remove"]} | 6 owes 1: note:a=1 note:b=2 note:c=3 pointer:b=3
presence {"id":"pointer:me","typeName":"pointer","x":6} | set | 6 owes 2: note:a=1 note:b=2 note:c=3 pointer:b=3
ended SLOW | done | 6 owes 1: note:a=1 note:b=2 note:c=3
"#;

/// What the room says under pending edits.
const REBASES: &str = r#"
connect 4 | connect 4 -1
take answer 4 wipe_all 3 {"note:a":["put",{"id":"note:a","typeName":"note","x":1}],"note:b":["put",{"id":"note:b","typeName":"note","x":2}]} | taken | 3 owes 0: note:a=1 note:b=2
edit {"note:a":["patch",{"x":["put",5]}]} | {"note:a":["patch",{"x":["put",1]}]} | 3 owes 1: note:a=5 note:b=2
take data patch 4 {"note:a":["patch",{"x":["put",7]}]} | taken | 4 owes 1: note:a=5 note:b=2
push | push 1 {"note:a":["patch",{"x":["put",5]}]}
take data discard 5 1 | taken | 5 owes 0: note:a=7 note:b=2
edit {"note:b":["patch",{"x":["put",9]}]} | {"note:b":["patch",{"x":["put",2]}]} | 5 owes 1: note:a=7 note:b=9
edit {"note:b":["patch",{"x":["put",8]}]} | {"note:b":["patch",{"x":["put",9]}]} | 5 owes 2: note:a=7 note:b=8
push | push 2 {"note:b":["patch",{"x":["put",9]}]}
push | push 3 {"note:b":["patch",{"x":["put",8]}]}
take data rebase 6 2 {"note:b":["patch",{"x":["put",3]}]} | taken | 6 owes 1: note:a=7 note:b=8
take data patch 7 {"note:b":["remove"]} | taken | 7 owes 1: note:a=7
take data rebase 8 3 {} | taken | 8 owes 0: note:a=7
edit {"note:a":["remove"]} | {"note:a":["put",{"id":"note:a","typeName":"note","x":7}]} | 8 owes 1:
take data patch 9 {"note:a":["patch",{"x":["put",6]}],"note:c":["put",{"id":"note:c","typeName":"note","x":1}]} | taken | 9 owes 1: note:c=1
push | push 4 {"note:a":["remove"]}
take data discard 10 4 | taken | 10 owes 0: note:a=6 note:c=1
# What isn't admitted is passed over, and pending.
edit {"note:a":["patch",{"x":["put",10]}],"note:c":["patch",{"x":["put",2]}]} | {"note:c":["patch",{"x":["put",1]}]} | 10 owes 1: note:a=6 note:c=2
push | push 5 {"note:a":["patch",{"x":["put",10]}],"note:c":["patch",{"x":["put",2]}]}
take data commit 11 5 | taken | 11 owes 0: note:a=6 note:c=2
# Others come and go.
take data patch 12 {"note:a":["patch",{"x":["put",4]}],"pointer:b":["put",{"id":"pointer:b","typeName":"pointer","x":2}]} | taken | 12 owes 0: note:a=4 note:c=2 pointer:b=2
take data patch 13 {"pointer:b":["patch",{"x":["put",3]}]}; patch 14 {"pointer:d":["put",{"id":"pointer:d","typeName":"pointer","x":1}]} | taken | 14 owes 0: note:a=4 note:c=2 pointer:b=3 pointer:d=1
take data patch 15 {"pointer:b":["remove"]} | taken | 15 owes 0: note:a=4 note:c=2 pointer:d=1
"#;

/// Commits of its own edits, and what the base has under those that are left.
const COMMITS: &str = r#"
connect 4 | connect 4 -1
take answer 4 wipe_all 3 {} | taken | 3 owes 0:
edit {"note:a":["put",{"id":"note:a","typeName":"note","x":1}]} | {"note:a":["remove"]} | 3 owes 1: note:a=1
edit {"note:a":["patch",{"x":["put",2]}]} | {"note:a":["patch",{"x":["put",1]}]} | 3 owes 2: note:a=2
edit {"note:a":["remove"]} | {"note:a":["put",{"id":"note:a","typeName":"note","x":2}]} | 3 owes 3:
edit {"note:b":["put",{"id":"note:b","typeName":"note","x":5}]} | {"note:b":["remove"]} | 3 owes 4: note:b=5
push | push 1 {"note:a":["put",{"id":"note:a","typeName":"note","x":1}]}
push | push 2 {"note:a":["patch",{"x":["put",2]}]}
push | push 3 {"note:a":["remove"]}
push | push 4 {"note:b":["put",{"id":"note:b","typeName":"note","x":5}]}
# The base has the put, which the edits left hide, and then a patch of others.
take data commit 4 1 | taken | 4 owes 3: note:b=5
take data patch 5 {"note:a":["patch",{"x":["put",7]}]} | taken | 5 owes 3: note:b=5
take data discard 6 2; discard 7 3 | taken | 7 owes 1: note:a=7 note:b=5
take data commit 8 4 | taken | 8 owes 0: note:a=7 note:b=5
# An id that no edit names any more is changed at once.
take data patch 9 {"note:b":["patch",{"x":["put",6]}]} | taken | 9 owes 0: note:a=7 note:b=6
# Two commits in one message, of which one leaves an id to a later edit.
edit {"note:b":["patch",{"x":["put",1]}]} | {"note:b":["patch",{"x":["put",6]}]} | 9 owes 1: note:a=7 note:b=1
edit {"note:a":["patch",{"x":["put",2]}]} | {"note:a":["patch",{"x":["put",7]}]} | 9 owes 2: note:a=2 note:b=1
edit {"note:b":["patch",{"x":["put",3]}]} | {"note:b":["patch",{"x":["put",1]}]} | 9 owes 3: note:a=2 note:b=3
push | push 5 {"note:b":["patch",{"x":["put",1]}]}
push | push 6 {"note:a":["patch",{"x":["put",2]}]}
push | push 7 {"note:b":["patch",{"x":["put",3]}]}
take data commit 10 5; commit 11 6 | taken | 11 owes 1: note:a=2 note:b=3
take data discard 12 7 | taken | 12 owes 0: note:a=2 note:b=1
# A commit beside a patch of the same record in one message, before and after it.
edit {"note:a":["patch",{"x":["put",3]}]} | {"note:a":["patch",{"x":["put",2]}]} | 12 owes 1: note:a=3 note:b=1
edit {"note:b":["remove"]} | {"note:b":["put",{"id":"note:b","typeName":"note","x":1}]} | 12 owes 2: note:a=3
push | push 8 {"note:a":["patch",{"x":["put",3]}]}
push | push 9 {"note:b":["remove"]}
take data commit 13 8; patch 14 {"note:a":["patch",{"x":["put",4]}]} | taken | 14 owes 1: note:a=4
take data patch 15 {"note:b":["put",{"id":"note:b","typeName":"note","x":8}]}; commit 16 9 | taken | 16 owes 0: note:a=4
"#;

/// Pending edits that meet what others did: the base has the room's events in order, and what is pending is done over it.
const MEETS: &str = r#"
connect 4 | connect 4 -1
take answer 4 wipe_all 3 {"note:a":["put",{"id":"note:a","typeName":"note","x":1}],"note:b":["put",{"id":"note:b","typeName":"note","x":2}],"note:c":["put",{"id":"note:c","typeName":"note","x":3}]} | taken | 3 owes 0: note:a=1 note:b=2 note:c=3
# A commit and a patch of another id in one message, under an edit that stays.
edit {"note:a":["patch",{"x":["put",4]}]} | {"note:a":["patch",{"x":["put",1]}]} | 3 owes 1: note:a=4 note:b=2 note:c=3
edit {"note:a":["patch",{"x":["put",6]}]} | {"note:a":["patch",{"x":["put",4]}]} | 3 owes 2: note:a=6 note:b=2 note:c=3
push | push 1 {"note:a":["patch",{"x":["put",4]}]}
push | push 2 {"note:a":["patch",{"x":["put",6]}]}
take data commit 4 1; patch 5 {"note:b":["patch",{"x":["put",5]}]} | taken | 5 owes 1: note:a=6 note:b=5 note:c=3
take data discard 6 2 | taken | 6 owes 0: note:a=4 note:b=5 note:c=3
# A patch of an id that no edit names beside one that an edit names.
edit {"note:a":["patch",{"x":["put",7]}]} | {"note:a":["patch",{"x":["put",4]}]} | 6 owes 1: note:a=7 note:b=5 note:c=3
take data patch 7 {"note:a":["patch",{"x":["put",1]}],"note:c":["patch",{"x":["put",8]}]} | taken | 7 owes 1: note:a=7 note:b=5 note:c=8
push | push 3 {"note:a":["patch",{"x":["put",7]}]}
take data discard 8 3 | taken | 8 owes 0: note:a=1 note:b=5 note:c=8
# Patches of the same field under a pending patch, which comes after them.
edit {"note:b":["patch",{"x":["put",6]}]} | {"note:b":["patch",{"x":["put",5]}]} | 8 owes 1: note:a=1 note:b=6 note:c=8
take data patch 9 {"note:b":["patch",{"x":["put",9]}]} | taken | 9 owes 1: note:a=1 note:b=6 note:c=8
push | push 4 {"note:b":["patch",{"x":["put",6]}]}
take data patch 10 {"note:b":["patch",{"x":["put",3]}]}; commit 11 4 | taken | 11 owes 0: note:a=1 note:b=6 note:c=8
# Where others remove its record a pending patch is passed over, and it acts on the next one that it leaves admitted.
edit {"note:c":["patch",{"x":["put",2]}]} | {"note:c":["patch",{"x":["put",8]}]} | 11 owes 1: note:a=1 note:b=6 note:c=2
take data patch 12 {"note:c":["remove"]} | taken | 12 owes 1: note:a=1 note:b=6
take data patch 13 {"note:c":["put",{"id":"note:c","typeName":"note","x":5}]} | taken | 13 owes 1: note:a=1 note:b=6 note:c=2
take data patch 14 {"note:c":["put",{"id":"note:c","typeName":"notebooks!","x":4}]} | taken | 14 owes 1: note:a=1 note:b=6 note:c=4
take data patch 15 {"note:c":["put",{"id":"note:c","typeName":"note","x":5}]} | taken | 15 owes 1: note:a=1 note:b=6 note:c=2
push | push 5 {"note:c":["patch",{"x":["put",2]}]}
take data discard 16 5 | taken | 16 owes 0: note:a=1 note:b=6 note:c=5
# A patch under a pending removal.
edit {"note:a":["remove"]} | {"note:a":["put",{"id":"note:a","typeName":"note","x":1}]} | 16 owes 1: note:b=6 note:c=5
take data patch 17 {"note:a":["patch",{"x":["put",9]}]} | taken | 17 owes 1: note:b=6 note:c=5
push | push 6 {"note:a":["remove"]}
take data discard 18 6 | taken | 18 owes 0: note:a=9 note:b=6 note:c=5
# A discard and a patch of the same id in one message, in both orders.
edit {"note:a":["patch",{"x":["put",3]}]} | {"note:a":["patch",{"x":["put",9]}]} | 18 owes 1: note:a=3 note:b=6 note:c=5
push | push 7 {"note:a":["patch",{"x":["put",3]}]}
take data discard 19 7; patch 20 {"note:a":["patch",{"x":["put",2]}]} | taken | 20 owes 0: note:a=2 note:b=6 note:c=5
edit {"note:a":["patch",{"x":["put",3]}]} | {"note:a":["patch",{"x":["put",2]}]} | 20 owes 1: note:a=3 note:b=6 note:c=5
push | push 8 {"note:a":["patch",{"x":["put",3]}]}
take data patch 21 {"note:a":["patch",{"x":["put",7]}]}; discard 22 8 | taken | 22 owes 0: note:a=7 note:b=6 note:c=5
# A rebase that names fewer ids than the edit.
edit {"note:a":["patch",{"x":["put",1]}],"note:b":["patch",{"x":["put",1]}]} | {"note:a":["patch",{"x":["put",7]}],"note:b":["patch",{"x":["put",6]}]} | 22 owes 1: note:a=1 note:b=1 note:c=5
push | push 9 {"note:a":["patch",{"x":["put",1]}],"note:b":["patch",{"x":["put",1]}]}
take data rebase 23 9 {"note:a":["patch",{"x":["put",1]}]} | taken | 23 owes 0: note:a=1 note:b=6 note:c=5
# A rebase that names two other ids, of which an edit that stays names one.
edit {"note:a":["patch",{"x":["put",4]}]} | {"note:a":["patch",{"x":["put",1]}]} | 23 owes 1: note:a=4 note:b=6 note:c=5
edit {"note:c":["patch",{"x":["put",0]}]} | {"note:c":["patch",{"x":["put",5]}]} | 23 owes 2: note:a=4 note:b=6 note:c=0
push | push 10 {"note:a":["patch",{"x":["put",4]}]}
push | push 11 {"note:c":["patch",{"x":["put",0]}]}
take data rebase 24 10 {"note:b":["patch",{"x":["put",2]}],"note:c":["patch",{"x":["put",9]}]} | taken | 24 owes 1: note:a=1 note:b=2 note:c=0
take data discard 25 11 | taken | 25 owes 0: note:a=1 note:b=2 note:c=9
# Two results in one message, of which the second leaves its id to an edit that stays.
edit {"note:a":["patch",{"x":["put",2]}]} | {"note:a":["patch",{"x":["put",1]}]} | 25 owes 1: note:a=2 note:b=2 note:c=9
edit {"note:b":["patch",{"x":["put",3]}]} | {"note:b":["patch",{"x":["put",2]}]} | 25 owes 2: note:a=2 note:b=3 note:c=9
edit {"note:b":["patch",{"x":["put",4]}]} | {"note:b":["patch",{"x":["put",3]}]} | 25 owes 3: note:a=2 note:b=4 note:c=9
push | push 12 {"note:a":["patch",{"x":["put",2]}]}
push | push 13 {"note:b":["patch",{"x":["put",3]}]}
push | push 14 {"note:b":["patch",{"x":["put",4]}]}
take data discard 26 12; commit 27 13 | taken | 27 owes 1: note:a=1 note:b=4 note:c=9
take data discard 28 14 | taken | 28 owes 0: note:a=1 note:b=3 note:c=9
# An answer that changes an id under two edits, takes away two others, of which one edit names one, and brings a presence.
edit {"note:a":["patch",{"x":["put",6]}]} | {"note:a":["patch",{"x":["put",1]}]} | 28 owes 1: note:a=6 note:b=3 note:c=9
edit {"note:a":["patch",{"x":["put",8]}],"note:c":["patch",{"x":["put",7]}]} | {"note:a":["patch",{"x":["put",6]}],"note:c":["patch",{"x":["put",9]}]} | 28 owes 2: note:a=8 note:b=3 note:c=7
take data patch 29 {"pointer:d":["put",{"id":"pointer:d","typeName":"pointer","x":1}]} | taken | 29 owes 2: note:a=8 note:b=3 note:c=7 pointer:d=1
lost | done | 29 owes 2: note:a=8 note:b=3 note:c=7
connect 5 | connect 5 29
take answer 5 wipe_presence 32 {"note:a":["patch",{"x":["put",2]}],"note:b":["remove"],"note:c":["remove"],"pointer:e":["put",{"id":"pointer:e","typeName":"pointer","x":4}]} | taken | 32 owes 2: note:a=8 pointer:e=4
push | push 15 {"note:a":["patch",{"x":["put",6]}]}
push | push 16 {"note:a":["patch",{"x":["put",8]}],"note:c":["patch",{"x":["put",7]}]}
take data discard 33 15 | taken | 33 owes 1: note:a=8 pointer:e=4
take data discard 34 16 | taken | 34 owes 0: note:a=2 pointer:e=4
# Edits that name ids which the room never had, of which it gets one.
edit {"note:m":["patch",{"x":["put",5]}],"note:n":["put",{"id":"note:n","typeName":"note","x":3}]} | {"note:n":["remove"]} | 34 owes 1: note:a=2 note:n=3 pointer:e=4
edit {"note:k":["remove"]} | {} | 34 owes 2: note:a=2 note:n=3 pointer:e=4
push | push 17 {"note:m":["patch",{"x":["put",5]}],"note:n":["put",{"id":"note:n","typeName":"note","x":3}]}
push | push 18 {"note:k":["remove"]}
take data patch 35 {"note:a":["patch",{"x":["put",0]}]} | taken | 35 owes 2: note:a=0 note:n=3 pointer:e=4
take data patch 36 {"note:m":["put",{"id":"note:m","typeName":"note","x":1}]} | taken | 36 owes 2: note:a=0 note:m=5 note:n=3 pointer:e=4
take data discard 37 17 | taken | 37 owes 1: note:a=0 note:m=1 pointer:e=4
take data commit 38 18 | taken | 38 owes 0: note:a=0 note:m=1 pointer:e=4
"#;

/// What an answer keeps of the base.
const SNAPSHOTS: &str = r#"
connect 1 | connect 1 -1
take answer 1 wipe_all 3 {"note:a":["put",{"id":"note:a","typeName":"note","x":1}],"note:b":["put",{"id":"note:b","typeName":"note","x":2}],"pointer:d":["put",{"id":"pointer:d","typeName":"pointer","x":4}]} | taken | 3 owes 0: note:a=1 note:b=2 pointer:d=4
edit {"note:b":["patch",{"x":["put",7]}],"note:c":["put",{"id":"note:c","typeName":"note","x":3}]} | {"note:b":["patch",{"x":["put",2]}],"note:c":["remove"]} | 3 owes 1: note:a=1 note:b=7 note:c=3 pointer:d=4
lost | done | 3 owes 1: note:a=1 note:b=7 note:c=3
connect 2 | connect 2 3
take answer 2 wipe_presence 5 {"note:a":["patch",{"x":["put",6]}]} | taken | 5 owes 1: note:a=6 note:b=7 note:c=3
lost | done
connect 3 | connect 3 5
# The edit has nothing to patch.
take answer 3 wipe_all 9 {"note:d":["put",{"id":"note:d","typeName":"note","x":4}],"pointer:d":["put",{"id":"pointer:d","typeName":"pointer","x":5}]} | taken | 9 owes 1: note:c=3 note:d=4 pointer:d=5
push | push 1 {"note:b":["patch",{"x":["put",7]}],"note:c":["put",{"id":"note:c","typeName":"note","x":3}]}
take data discard 10 1 | taken | 10 owes 0: note:d=4 pointer:d=5
"#;

/// Which records can be a presence.
const PRESENCES: &str = r#"
presence {"id":"note:a","typeName":"note","x":1} | WrongScope
presence {"x":1} | WrongScope
presence {"id":"cursor:a"} | WrongScope
presence {"id":"pointer:a","typeName":"pointer","x":10} | Invalid
presence {"id":"pointer:a"} | Invalid
connect 4 | connect 4 -1
take answer 4 wipe_all 0 {} | taken | 0 owes 0:
push | none
presence {"id":"pointer:a","typeName":"pointer","x":10} | Invalid
presence {"id":"pointer:a","typeName":"pointer","x":1} | set | 0 owes 1:
push | push 1 ["put",{"id":"pointer:a","typeName":"pointer","x":1}]
take data commit 1 1 | taken | 1 owes 0:
"#;

/// Asserts that a new client does what a script says.
fn plays(rt: &impl Abort, alloc: Global, script: &str) -> Result<(), Fail> {
    if let Some(difference) = difference_in(alloc, script)? {
        assert_eq!(rt; difference.as_str(), "");
    }
    Ok(())
}

#[test]
fn clients_do_what_their_scripts_say(rt: HostRuntime) -> Result<(), Fail> {
    plays(&rt, rt.alloc(), REFUSALS)?;
    plays(&rt, rt.alloc(), ORDER)?;
    plays(&rt, rt.alloc(), ENDS)?;
    plays(&rt, rt.alloc(), LOSSES)?;
    plays(&rt, rt.alloc(), REBASES)?;
    plays(&rt, rt.alloc(), COMMITS)?;
    plays(&rt, rt.alloc(), MEETS)?;
    plays(&rt, rt.alloc(), SNAPSHOTS)?;
    plays(&rt, rt.alloc(), PRESENCES)
}
