//! The courses: in each row a call, what it gives, and what the subject shows then, where that is new.

/// A peer that is connected, is cut, and comes back.
pub(crate) const PEER: &str = r#"
# Without a connection.
edit {"page:p":["put",$P]} | done | -1 owes 1: {"page:p":$P} {}
view count page:p | 0
presence $R(me,ann) | done
presence $G(q,a0,0) | WrongScope
mark m | done
edit {"shape:a":["put",$G(a,a0,0)]} | done | -1 owes 2: {"page:p":$P,"shape:a":$G(a,a0,0)} {}
# It asks, is told what others have, and pushes.
connect 4 | connect 4 -1
take {"connectRequestId":"4","diff":{"instance_presence:x":["put",$R(x,bob)],"shape:b":["put",$G(b,a1,0)]},"hydrationType":"wipe_all","isReadonly":false,"protocolVersion":2,"schema":{"schemaVersion":2,"sequences":{"rooms.base":1,"rooms.binding":1,"rooms.shape":2}},"serverClock":3,"type":"connect"} | done | 3 owes 3: {"page:p":$P,"shape:a":$G(a,a0,0),"shape:b":$G(b,a1,0)} {"instance_presence:x":$R(x,bob)}
next_push | push 1 {"page:p":["put",$P]}
next_push | push 2 {"shape:a":["put",$G(a,a0,0)]}
next_push | push 3 ["put",$R(me,ann)]
next_push | none
told | told, 0 is 2
# Answers and what others do.
take {"data":[{"action":"commit","clientClock":1,"serverClock":4,"type":"push_result"},{"diff":{"instance_presence:x":["remove"],"shape:b":["patch",{"x":["put",7]}]},"serverClock":5,"type":"patch"}],"type":"data"} | done | 5 owes 2: {"page:p":$P,"shape:a":$G(a,a0,0),"shape:b":$G(b,a1,7)} {}
take {"data":[{"action":"discard","clientClock":2,"serverClock":6,"type":"push_result"},{"action":"commit","clientClock":3,"serverClock":7,"type":"push_result"}],"type":"data"} | done | 7 owes 0: {"page:p":$P,"shape:b":$G(b,a1,7)} {}
told | told, 0 is 1
# What is taken back is pending, though it isn't there any more.
bail m | done | 7 owes 1: {"page:p":$P,"shape:b":$G(b,a1,7)} {}
presence $R(me,eve) | done | 7 owes 2: {"page:p":$P,"shape:b":$G(b,a1,7)} {}
mark k | done
edit {"shape:b":["patch",{"x":["put",9]}]} | done | 7 owes 3: {"page:p":$P,"shape:b":$G(b,a1,9)} {}
next_push | push 4 {"shape:a":["remove"]}
next_push | push 5 ["put",$R(me,eve)]
take {"data":[{"action":"commit","clientClock":4,"serverClock":8,"type":"push_result"},{"diff":{"shape:b":["patch",{"x":["put",1]}]},"serverClock":9,"type":"patch"}],"type":"data"} | done | 9 owes 2: {"page:p":$P,"shape:b":$G(b,a1,9)} {}
take {"data":[{"action":"commit","clientClock":5,"serverClock":10,"type":"push_result"}],"type":"data"} | done | 10 owes 1: {"page:p":$P,"shape:b":$G(b,a1,9)} {}
undo | done | 10 owes 2: {"page:p":$P,"shape:b":$G(b,a1,7)} {}
redo | done | 10 owes 3: {"page:p":$P,"shape:b":$G(b,a1,9)} {}
view box shape:b | 1
told | told, 1 is {"h":10,"w":10,"x":9,"y":0}
# It comes back, and keeps what it had.
lost | done
connect 5 | connect 5 10
take {"connectRequestId":"5","diff":{"shape:b":["remove"],"shape:d":["put",$G(d,a3,0)]},"hydrationType":"wipe_presence","isReadonly":false,"protocolVersion":2,"schema":{"schemaVersion":2,"sequences":{"rooms.base":1,"rooms.binding":1,"rooms.shape":2}},"serverClock":12,"type":"connect"} | done | 12 owes 4: {"page:p":$P,"shape:d":$G(d,a3,0)} {}
told | told, 1 is null
next_push | push 6 {"shape:b":["patch",{"x":["put",9]}]}
"#;

/// A peer that takes back what it did, and does it again.
pub(crate) const MARKS: &str = r#"
edit {"page:p":["put",$P]} | done | -1 owes 1: {"page:p":$P} {}
view tree page:p | 0
told | told, 0 is []
mark m | done
edit {"shape:a":["put",$G(a,a0,0)]} | done | -1 owes 2: {"page:p":$P,"shape:a":$G(a,a0,0)} {}
mark n | done
edit {"shape:a":["patch",{"x":["put",5]}],"shape:b":["put",$G(b,a1,0)]} | done | -1 owes 3: {"page:p":$P,"shape:a":$G(a,a0,5),"shape:b":$G(b,a1,0)} {}
told | told, 0 is ["shape:a","shape:b"]
undo | done | -1 owes 4: {"page:p":$P,"shape:a":$G(a,a0,0)} {}
redo | done | -1 owes 5: {"page:p":$P,"shape:a":$G(a,a0,5),"shape:b":$G(b,a1,0)} {}
# The second goes past a mark, which the redo brings back.
undo | done | -1 owes 6: {"page:p":$P,"shape:a":$G(a,a0,0)} {}
undo | done | -1 owes 7: {"page:p":$P} {}
redo | done | -1 owes 8: {"page:p":$P,"shape:a":$G(a,a0,0)} {}
told | told, 0 is ["shape:a"]
bail m | done | -1 owes 9: {"page:p":$P} {}
redo | nothing
bail m | NoMark
undo | done | -1 owes 10: {} {}
redo | done | -1 owes 11: {"page:p":$P} {}
# An edit that is refused, and a mark without an edit after it.
mark k | done
edit {"shape:c":["remove"]} | refused
undo | done | -1 owes 12: {} {}
redo | done | -1 owes 13: {"page:p":$P} {}
bail k | done
# An edit after an undo, which can't be done again then.
undo | done | -1 owes 14: {} {}
edit {"page:p":["put",$P]} | done | -1 owes 15: {"page:p":$P} {}
redo | nothing
"#;

/// A peer whose presence is the first that is pending.
pub(crate) const SEEN: &str = r#"
connect 4 | connect 4 -1
take {"connectRequestId":"4","diff":{"instance_presence:x":["put",$R(x,bob)],"shape:b":["put",$G(b,a1,0)]},"hydrationType":"wipe_all","isReadonly":false,"protocolVersion":2,"schema":{"schemaVersion":2,"sequences":{"rooms.base":1,"rooms.binding":1,"rooms.shape":2}},"serverClock":3,"type":"connect"} | done | 3 owes 0: {"shape:b":$G(b,a1,0)} {"instance_presence:x":$R(x,bob)}
presence $G(q,a0,0) | WrongScope
presence $R(me,ann) | done | 3 owes 1: {"shape:b":$G(b,a1,0)} {"instance_presence:x":$R(x,bob)}
# A text of more than 22 bytes takes memory, and so does the row of what is pending as it grows.
presence {"id":"shape:of-a-name-that-is-long"} | WrongScope
presence $R(me,eve) | done | 3 owes 2: {"shape:b":$G(b,a1,0)} {"instance_presence:x":$R(x,bob)}
presence $R(me,ann) | done | 3 owes 3: {"shape:b":$G(b,a1,0)} {"instance_presence:x":$R(x,bob)}
presence $R(me,eve) | done | 3 owes 4: {"shape:b":$G(b,a1,0)} {"instance_presence:x":$R(x,bob)}
presence $R(me,ann) | done | 3 owes 5: {"shape:b":$G(b,a1,0)} {"instance_presence:x":$R(x,bob)}
presence $R(me,eve) | done | 3 owes 6: {"shape:b":$G(b,a1,0)} {"instance_presence:x":$R(x,bob)}
next_push | push 1 ["put",$R(me,ann)]
"#;

/// A client over a store that counts.
pub(crate) const CLIENT: &str = r#"
connect 4 | connect 4 -1
take {"connectRequestId":"4","diff":{"instance_presence:x":["put",$R(x,bob)],"shape:b":["put",$G(b,a1,0)]},"hydrationType":"wipe_all","isReadonly":false,"protocolVersion":2,"schema":{"schemaVersion":2,"sequences":{"rooms.base":1,"rooms.binding":1,"rooms.shape":2}},"serverClock":3,"type":"connect"} | done | 3 owes 0: {"shape:b":$G(b,a1,0)} {"instance_presence:x":$R(x,bob)}
presence $G(q,a0,0) | WrongScope
presence $R(me,ann) | done | 3 owes 1: {"shape:b":$G(b,a1,0)} {"instance_presence:x":$R(x,bob)}
edit {"page:p":["put",$P]} | {"page:p":["remove"]} | 3 owes 2: {"page:p":$P,"shape:b":$G(b,a1,0)} {"instance_presence:x":$R(x,bob)}
next_push | push 1 ["put",$R(me,ann)]
next_push | push 2 {"page:p":["put",$P]}
edit {"shape:b":["patch",{"x":["put",4]}]} | {"shape:b":["patch",{"x":["put",0]}]} | 3 owes 3: {"page:p":$P,"shape:b":$G(b,a1,4)} {"instance_presence:x":$R(x,bob)}
presence $R(me,eve) | done | 3 owes 4: {"page:p":$P,"shape:b":$G(b,a1,4)} {"instance_presence:x":$R(x,bob)}
take {"data":[{"action":"commit","clientClock":1,"serverClock":4,"type":"push_result"},{"action":{"rebaseWithDiff":{"page:p":["put",$P],"shape:c":["put",$G(c,a2,0)]}},"clientClock":2,"serverClock":5,"type":"push_result"}],"type":"data"} | done | 5 owes 2: {"page:p":$P,"shape:b":$G(b,a1,4),"shape:c":$G(c,a2,0)} {"instance_presence:x":$R(x,bob)}
next_push | push 3 {"shape:b":["patch",{"x":["put",4]}]}
# Others remove what it patches.
take {"data":[{"diff":{"shape:b":["remove"]},"serverClock":6,"type":"patch"}],"type":"data"} | done | 6 owes 2: {"page:p":$P,"shape:c":$G(c,a2,0)} {"instance_presence:x":$R(x,bob)}
take {"data":[{"action":"discard","clientClock":3,"serverClock":7,"type":"push_result"}],"type":"data"} | done | 7 owes 1: {"page:p":$P,"shape:c":$G(c,a2,0)} {"instance_presence:x":$R(x,bob)}
next_push | push 4 ["put",$R(me,eve)]
take {"data":[{"diff":{},"serverClock":6,"type":"patch"}],"type":"data"} | ClockBack
lost | done | 7 owes 0: {"page:p":$P,"shape:c":$G(c,a2,0)} {}
connect 5 | connect 5 7
take {"connectRequestId":"5","diff":{"page:p":["put",$P]},"hydrationType":"wipe_all","isReadonly":false,"protocolVersion":2,"schema":{"schemaVersion":2,"sequences":{"rooms.base":1,"rooms.binding":1,"rooms.shape":2}},"serverClock":9,"type":"connect"} | done | 9 owes 1: {"page:p":$P} {}
next_push | push 5 ["put",$R(me,eve)]
"#;

/// A store of records.
pub(crate) const STORE: &str = r#"
write page:p $P | none | {"page:p":$P}
write shape:a $G(a,a0,0) | none | {"page:p":$P,"shape:a":$G(a,a0,0)}
write shape:a $G(a,a0,5) | $G(a,a0,0) | {"page:p":$P,"shape:a":$G(a,a0,5)}
remove shape:a | $G(a,a0,5) | {"page:p":$P}
remove shape:a | none
apply {"page:p":["patch",{"name":["put","Q"]}],"shape:a":["put",$G(a,a0,1)],"shape:b":["put",$G(b,a1,2)]} | {"page:p":["patch",{"name":["put","P"]}],"shape:a":["remove"],"shape:b":["remove"]} | {"page:p":{"id":"page:p","index":"a0","meta":{},"name":"Q","typeName":"page"},"shape:a":$G(a,a0,1),"shape:b":$G(b,a1,2)}
# Two of four operations act.
apply {"page:p":["patch",{"name":["put",7]}],"shape:a":["patch",{"x":["put",3]}],"shape:b":["remove"],"shape:z":["remove"]} | {"shape:a":["patch",{"x":["put",1]}],"shape:b":["put",$G(b,a1,2)]} | {"page:p":{"id":"page:p","index":"a0","meta":{},"name":"Q","typeName":"page"},"shape:a":$G(a,a0,3)}
# So many records that the tree of the store grows.
apply {"page:a":["put",$E(a,)],"page:b":["put",$E(b,)],"page:c":["put",$E(c,)],"page:d":["put",$E(d,)],"page:e":["put",$E(e,)],"page:f":["put",$E(f,)],"page:g":["put",$E(g,)],"page:h":["put",$E(h,)],"page:i":["put",$E(i,)],"page:j":["put",$E(j,)],"page:k":["put",$E(k,)],"page:l":["put",$E(l,)]} | {"page:a":["remove"],"page:b":["remove"],"page:c":["remove"],"page:d":["remove"],"page:e":["remove"],"page:f":["remove"],"page:g":["remove"],"page:h":["remove"],"page:i":["remove"],"page:j":["remove"],"page:k":["remove"],"page:l":["remove"]} | {"page:a":$E(a,),"page:b":$E(b,),"page:c":$E(c,),"page:d":$E(d,),"page:e":$E(e,),"page:f":$E(f,),"page:g":$E(g,),"page:h":$E(h,),"page:i":$E(i,),"page:j":$E(j,),"page:k":$E(k,),"page:l":$E(l,),"page:p":{"id":"page:p","index":"a0","meta":{},"name":"Q","typeName":"page"},"shape:a":$G(a,a0,3)}
"#;

/// A store of which views are asked.
pub(crate) const BOARD: &str = r#"
write page:p $P | none | open 0 watched wrote 1: {"page:p":$P}
watch count page:p | 0 | open 0 watched 0 wrote 1: {"page:p":$P}
watch children page:p | 1 | open 0 watched 0 1 wrote 1: {"page:p":$P}
due | due, 0 is 0, 1 is ids
# A shape is written with the list of its parent.
write shape:a $G(a,a0,3) | none | open 0 watched 0 1 wrote 3: {"page:p":$P,"shape:a":$G(a,a0,3)}
write shape:b $G(b,a1,0) | none | open 0 watched 0 1 wrote 5: {"page:p":$P,"shape:a":$G(a,a0,3),"shape:b":$G(b,a1,0)}
due | due, 0 is 2, 1 is ids shape:a shape:b
ask box shape:a | 3 0 10 10
ask bound shape:a | ids
# Two transactions, of which the inner one is aborted. A binding is written with the lists of its two ends.
begin | done | open 1 watched 0 1 wrote 5: {"page:p":$P,"shape:a":$G(a,a0,3),"shape:b":$G(b,a1,0)}
write binding:k {"fromId":"shape:a","id":"binding:k","toId":"shape:b","typeName":"binding"} | none | open 1 watched 0 1 wrote 5: {"binding:k":{"fromId":"shape:a","id":"binding:k","toId":"shape:b","typeName":"binding"},"page:p":$P,"shape:a":$G(a,a0,3),"shape:b":$G(b,a1,0)}
ask bound shape:b | ids binding:k
begin | done | open 2 watched 0 1 wrote 5: {"binding:k":{"fromId":"shape:a","id":"binding:k","toId":"shape:b","typeName":"binding"},"page:p":$P,"shape:a":$G(a,a0,3),"shape:b":$G(b,a1,0)}
remove shape:a | $G(a,a0,3) | open 2 watched 0 1 wrote 5: {"binding:k":{"fromId":"shape:a","id":"binding:k","toId":"shape:b","typeName":"binding"},"page:p":$P,"shape:b":$G(b,a1,0)}
ask count page:p | 1
abort | done | open 1 watched 0 1 wrote 5: {"binding:k":{"fromId":"shape:a","id":"binding:k","toId":"shape:b","typeName":"binding"},"page:p":$P,"shape:a":$G(a,a0,3),"shape:b":$G(b,a1,0)}
ask count page:p | 2
commit | done | open 0 watched 0 1 wrote 8: {"binding:k":{"fromId":"shape:a","id":"binding:k","toId":"shape:b","typeName":"binding"},"page:p":$P,"shape:a":$G(a,a0,3),"shape:b":$G(b,a1,0)}
due | due
apply {"shape:a":["remove"],"shape:b":["patch",{"x":["put",4]}]} | {"shape:a":["put",$G(a,a0,3)],"shape:b":["patch",{"x":["put",0]}]} | open 0 watched 0 1 wrote 11: {"binding:k":{"fromId":"shape:a","id":"binding:k","toId":"shape:b","typeName":"binding"},"page:p":$P,"shape:b":$G(b,a1,4)}
due | due, 0 is 1, 1 is ids shape:b
ask record shape:b | $G(b,a1,4)
ask record shape:a | none
ask tree page:p | ids shape:b
"#;

/// What tells all that a peer or a client holds: what is told, pending, sent, marked and taken back, and its own presence, by
/// what it pushes once it is connected anew.
pub(crate) const PROBES: &str = r#"
told
next_push
next_push
next_push
redo
told
redo
undo
undo
undo
bail k
bail m
view count page:p
told
connect 8
lost
connect 9
take {"connectRequestId":"9","diff":{},"hydrationType":"wipe_presence","isReadonly":false,"protocolVersion":2,"schema":{"schemaVersion":2,"sequences":{"rooms.base":1,"rooms.binding":1,"rooms.shape":2}},"serverClock":50,"type":"connect"}
next_push
next_push
next_push
next_push
next_push
next_push
next_push
next_push
next_push
next_push
next_push
next_push
told
"#;

/// What tells all that a store holds: what is due and asked, and the records when its open transactions began.
pub(crate) const STORE_PROBES: &str = r#"
due
ask count page:p
ask box shape:a
write shape:e $G(e,a4,1)
apply {"shape:a":["remove"],"shape:e":["patch",{"x":["put",2]}]}
watch bound shape:a
abort
abort
due
ask children page:p
ask bound shape:b
begin
remove shape:e
abort
due
"#;
