//! What each kind of event comes to, and what a client says when it joins.
use crate::tables::plays;
use std::test::Fail;

/// Events of a client, before and on its connection.
const EVENTS: &str = r#"
# A page is put, pushed and committed.
H; PUT; DELIVER; DELIVER; SHOW; END | ANSWER {} 0; RESULT "commit" 1 1 | SHOWN 1 {"page:p":$P} {} 0; ENDED 1 0 | Done: JOIN; ASK; PUSH 1 {"page:p":["put",$P]}
# What follows the end isn't looked at.
H; END; {; DELIVER | x | ENDED -1 0 | Done: JOIN; ASK
# Blank lines are passed by.
BLANK; H; BLANK; BLANK; SHOW; BLANK; END | - | SHOWN -1 {} {} 0; ENDED -1 0 | Done: JOIN; ASK
# An edit is shown and owed at once. It goes out behind the answer, or as it is made.
H; PUT; SHOW; END | - | SHOWN -1 {"page:p":$P} {} 1; ENDED -1 1 | Done: JOIN; ASK
H; DELIVER; PUT; SHOW; END | ANSWER {} 0 | SHOWN 0 {"page:p":$P} {} 1; ENDED 0 1 | Done: JOIN; ASK; PUSH 1 {"page:p":["put",$P]}
H; BOARD; X 1; DELIVER; X 2; END | ANSWER {} 0 | ENDED 0 3 | Done: JOIN; ASK; PUSH 1 {"page:p":["put",$P],"shape:a":["put",$G(a,a0,0)]}; PUSH 2 {"shape:a":["patch",{"x":["put",1]}]}; PUSH 3 {"shape:a":["patch",{"x":["put",2]}]}
# It goes out as it was completed: what hangs on a page goes with it.
H; DELIVER; EDIT {"page:p":["remove"]}; SHOW; END | ANSWER {"page:p":["put",$P],"page:q":["put",$E(q,t)],"shape:a":["put",$G(a,a0,0)]} 3 | SHOWN 3 {"page:q":$E(q,t)} {} 1; ENDED 3 1 | Done: JOIN; ASK; PUSH 1 {"page:p":["remove"],"shape:a":["remove"]}
# It goes out in pieces where it is long.
H; DELIVER; EDIT {"page:a":["put",$E(a,<x*32000>)],"page:b":["put",$E(b,<x*32000>)],"page:c":["put",$E(c,<x*32000>)],"page:d":["put",$E(d,<x*32000>)],"page:e":["put",$E(e,<x*32000>)],"page:f":["put",$E(f,<x*32000>)],"page:g":["put",$E(g,<x*32000>)],"page:h":["put",$E(h,<x*32000>)],"page:i":["put",$E(i,<x*32000>)]}; END | ANSWER {} 0 | ENDED 0 1 | Done: JOIN; ASK; 1_{"clientClock":1,"diff":{"page:a":["put",$E(a,<x*32000>)],"page:b":["put",$E(b,<x*32000>)],"page:c":["put",$E(c,<x*32000>)],"page:d":["put",$E(d,<x*32000>)],"page:e":["put",$E(e,<x*32000>)],"page:f":["put",$E(f,<x*32000>)],"page:g":["put",$E(g,<x*32000>)],"page:h":["put",$E(h,<x*32000>)],"page:i":["put",{"id":"page:i","index":"a0","meta":{"m":"<x*5342>; 0_<x*26658>"},"name":"","typeName":"page"}]},"type":"push"}
# A presence is pushed on a connection alone, behind the edits. It is owed once it is to be pushed.
H; DELIVER; PRESENCE $R(me,Ann); SHOW; END | ANSWER {} 0 | SHOWN 0 {} {} 1; ENDED 0 1 | Done: JOIN; ASK; PRESENT 1 $R(me,Ann)
H; PRESENCE $R(me,Ann); PUT; SHOW; DELIVER; SHOW; END | ANSWER {} 0 | SHOWN -1 {"page:p":$P} {} 1; SHOWN 0 {"page:p":$P} {} 2; ENDED 0 2 | Done: JOIN; ASK; PUSH 1 {"page:p":["put",$P]}; PRESENT 2 $R(me,Ann)
# Undo, redo and bail are pushed as edits.
H; DELIVER; BOARD; MARK m; X 1; UNDO; SHOW; REDO; SHOW; BAIL m; SHOW; END | ANSWER {} 0 | UNDONE true; SHOWN 0 {"page:p":$P,"shape:a":$G(a,a0,0)} {} 3; REDONE true; SHOWN 0 {"page:p":$P,"shape:a":$G(a,a0,1)} {} 4; SHOWN 0 {"page:p":$P,"shape:a":$G(a,a0,0)} {} 5; ENDED 0 5 | Done: JOIN; ASK; PUSH 1 {"page:p":["put",$P],"shape:a":["put",$G(a,a0,0)]}; PUSH 2 {"shape:a":["patch",{"x":["put",1]}]}; PUSH 3 {"shape:a":["patch",{"x":["put",0]}]}; PUSH 4 {"shape:a":["patch",{"x":["put",1]}]}; PUSH 5 {"shape:a":["patch",{"x":["put",0]}]}
H; BOARD; MARK m; X 1; X 2; X 3; UNDO; SHOW; REDO; SHOW; BAIL m; SHOW; UNDO; SHOW; UNDO; BAIL m | - | UNDONE true; SHOWN -1 {"page:p":$P,"shape:a":$G(a,a0,0)} {} 5; REDONE true; SHOWN -1 {"page:p":$P,"shape:a":$G(a,a0,3)} {} 6; SHOWN -1 {"page:p":$P,"shape:a":$G(a,a0,0)} {} 7; UNDONE true; SHOWN -1 {} {} 8; UNDONE false; FAULT 16 NoMark | Refused: JOIN; ASK
# Where there is nothing to take back or to do again, nothing is owed.
H; UNDO; REDO; MARK m; BAIL m; END | - | UNDONE false; REDONE false; ENDED -1 0 | Done: JOIN; ASK
# A new watch tells at once, and a watch tells again where its view differs.
H; WATCH {"count":"page:p"}; BOARD; X 1; EDIT {"shape:a":["remove"]}; END | - | TOLD 0 0; TOLD 1 0; TOLD 0 0; ENDED -1 3 | Done: JOIN; ASK
# An event's own line stands before what is told.
H; BOARD; WATCH {"tree":"page:p"}; WATCH {"bound":"shape:a"}; WATCH {"box":"shape:a"}; X 1; UNDO; END | - | TOLD ["shape:a"] 0; TOLD [] 1; TOLD {"h":10,"w":10,"x":0,"y":0} 2; TOLD {"h":10,"w":10,"x":1,"y":0} 2; UNDONE true; TOLD [] 0; TOLD null 2; ENDED -1 3 | Done: JOIN; ASK
# A message tells too.
H; WATCH {"count":"page:p"}; DELIVER; DELIVER; DELIVER; END | ANSWER {"page:p":["put",$P],"shape:a":["put",$G(a,a0,0)]} 1; PATCH {"shape:b":["put",$G(b,a1,0)]} 2; PATCH {"shape:b":["patch",{"x":["put",1]}]} 3 | TOLD 0 0; TOLD 1 0; TOLD 2 0; ENDED 3 0 | Done: JOIN; ASK
# A query finds what the client shows.
H; BOARD; QUERY shape ["gt","x",0]; X 1; QUERY shape ["gt","x",0]; QUERY page ["and",[]]; QUERY note ["and",[]]; END | - | IDS []; IDS ["shape:a"]; IDS ["page:p"]; IDS []; ENDED -1 2 | Done: JOIN; ASK
# Others and their edits are shown, under those that are owed.
H; DELIVER; DELIVER; SHOW; END | ANSWER {} 0; PATCH {"instance_presence:1":["put",$R(1,Bea)],"page:p":["put",$P]} 1 | SHOWN 1 {"page:p":$P} {"instance_presence:1":$R(1,Bea)} 0; ENDED 1 0 | Done: JOIN; ASK
H; DELIVER; X 7; DELIVER; SHOW; DELIVER; SHOW; END | ANSWER {"page:p":["put",$P],"shape:a":["put",$G(a,a0,0)]} 1; PATCH {"shape:a":["patch",{"x":["put",5]}]} 2; RESULT "commit" 1 3 | SHOWN 2 {"page:p":$P,"shape:a":$G(a,a0,7)} {} 1; SHOWN 3 {"page:p":$P,"shape:a":$G(a,a0,7)} {} 0; ENDED 3 0 | Done: JOIN; ASK; PUSH 1 {"shape:a":["patch",{"x":["put",7]}]}
H; DELIVER; X 9; DELIVER; SHOW; END | ANSWER {"page:p":["put",$P],"shape:a":["put",$G(a,a0,0)]} 1; {"data":[{"diff":{"shape:a":["remove"]},"serverClock":2,"type":"patch"},{"action":"discard","clientClock":1,"serverClock":3,"type":"push_result"}],"type":"data"} | SHOWN 3 {"page:p":$P} {} 0; ENDED 3 0 | Done: JOIN; ASK; PUSH 1 {"shape:a":["patch",{"x":["put",9]}]}
# A message is taken by each of them.
H; DELIVER; SHOW; DELIVER; SHOW; DELIVER; SHOW; END | ANSWER {} 0; PONG; PATCH {} 1 | SHOWN 0 {} {} 0; SHOWN 0 {} {} 0; SHOWN 1 {} {} 0; ENDED 1 0 | Done: JOIN; ASK
"#;

/// What a client says at each version of the tables and of which room, and records of versions.
const VERSIONS: &str = r#"
HEADER 1; END | - | ENDED -1 0 | Done: JOIN; ASKS {"rooms.base":1}
HEADER 2; END | - | ENDED -1 0 | Done: JOIN; ASKS {"rooms.base":1,"rooms.shape":1}
HEADER 4; END | - | ENDED -1 0 | Done: JOIN; ASKS {"rooms.asset":1,"rooms.base":1,"rooms.binding":1,"rooms.shape":2}
HEADER 5; END | - | ENDED -1 0 | Done: JOIN; ASKS {"rooms.asset":1,"rooms.base":1,"rooms.binding":1,"rooms.page":1,"rooms.shape":2}
@15; H; END | - | ENDED -1 0 | Done: {"readonly":false,"room":15,"type":"join"}; ASK
@4294967295; H; END | - | ENDED -1 0 | Done: {"readonly":false,"room":4294967295,"type":"join"}; ASK
HEADER 1; DELIVER; EDIT {"shape:a":["patch",{"alpha":["put",5]}]}; DELIVER; SHOW; END | ANSWER {"page:p":["put",$P],"shape:a":["put",$G1(a,a0,0)]} 1; RESULT {"rebaseWithDiff":{"shape:a":["put",$G1(a,a0,0,5)]}} 1 2 | SHOWN 2 {"page:p":$P,"shape:a":$G1(a,a0,0,5)} {} 0; ENDED 2 0 | Done: JOIN; ASKS {"rooms.base":1}; PUSH 1 {"shape:a":["patch",{"alpha":["put",5]}]}
HEADER 5; PUT | - | {"at":2,"fault":"Invalid page:p Missing"} | Refused: JOIN; ASKS {"rooms.asset":1,"rooms.base":1,"rooms.binding":1,"rooms.page":1,"rooms.shape":2}
"#;

#[test]
fn plays_each_event(rt: HostRuntime) -> Result<(), Fail> {
    plays(&rt, rt.alloc(), EVENTS)
}

#[test]
fn joins_a_room_at_each_version(rt: HostRuntime) -> Result<(), Fail> {
    plays(&rt, rt.alloc(), VERSIONS)
}
