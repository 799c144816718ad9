//! What clients watch and ask for.
//!
//! What the steps of scripts are, `test_with_worlds` tells.
use crate::played::{BASE, HEADER, Script, plays};
use std::test::Fail;

// A client tells what its own edits change, and what it takes back; a view that is the same it tells no more.
const OWN: &str = r#"
client 3
edit 0 {"page:p":["put",$P],"shape:a":["put",$G(a,a1,200)],"shape:f":["put",{"id":"shape:f","index":"a0","isLocked":false,"meta":{},"opacity":100,"parentId":"page:p","props":{"h":50,"name":"","w":100},"rotation":0,"type":"frame","typeName":"shape","x":10,"y":0}]}
watch 0 {"box":"shape:f"} | {"client":0,"told":{"h":50,"w":100,"x":10,"y":0},"watch":0}
watch 0 {"tree":"page:p"} | {"client":0,"told":["shape:f","shape:a"],"watch":1}
watch 0 {"bound":"shape:a"} | {"client":0,"told":[],"watch":2}
watch 0 {"count":"page:p"} | {"client":0,"told":2,"watch":3}
{"client":0,"do":"mark","name":"m"}
# The shape goes into the frame, behind its right edge: the frame's box is wider, and the tree is as before.
edit 0 {"shape:a":["patch",{"parentId":["put","shape:f"]}]} | {"client":0,"told":{"h":50,"w":210,"x":10,"y":0},"watch":0}
edit 0 {"binding:1":["put",{"fromId":"shape:w","id":"binding:1","meta":{},"props":{"anchor":{"x":0,"y":0},"isExact":true,"terminal":"end"},"toId":"shape:a","type":"arrow","typeName":"binding"}],"shape:w":["put",{"id":"shape:w","index":"a2","isLocked":false,"meta":{},"opacity":100,"parentId":"page:p","props":{"bend":0,"color":"black","end":{"x":1,"y":1},"size":"m","start":{"x":0,"y":0},"text":""},"rotation":0,"type":"arrow","typeName":"shape","x":0,"y":0}]} | {"client":0,"told":["shape:f","shape:a","shape:w"],"watch":1} and {"client":0,"told":["binding:1"],"watch":2} and {"client":0,"told":3,"watch":3}
# Nobody watches where the arrow is.
edit 0 {"shape:w":["patch",{"x":["put",5]}]}
edit 0 {"shape:a":["patch",{"props":["patch",{"w":["put",20]}]}]} | {"client":0,"told":{"h":50,"w":220,"x":10,"y":0},"watch":0}
edit 0 {"shape:f":["remove"],"shape:z":["remove"]} | NoRecord shape:z
# The shape goes with the frame, and the binding with the shape.
edit 0 {"shape:f":["remove"]} | {"client":0,"told":null,"watch":0} and {"client":0,"told":["shape:w"],"watch":1} and {"client":0,"told":[],"watch":2} and {"client":0,"told":1,"watch":3}
{"client":0,"do":"undo"} | {"client":0,"undo":true} and {"client":0,"told":{"h":50,"w":100,"x":10,"y":0},"watch":0} and {"client":0,"told":["shape:f","shape:a"],"watch":1} and {"client":0,"told":2,"watch":3}
{"client":0,"do":"redo"} | {"client":0,"redo":true} and {"client":0,"told":null,"watch":0} and {"client":0,"told":["shape:w"],"watch":1} and {"client":0,"told":1,"watch":3}
{"client":0,"do":"bail","name":"m"} | {"client":0,"told":{"h":50,"w":100,"x":10,"y":0},"watch":0} and {"client":0,"told":["shape:f","shape:a"],"watch":1} and {"client":0,"told":2,"watch":3}
{"client":0,"do":"undo"} | {"client":0,"undo":true} and {"client":0,"told":null,"watch":0} and {"client":0,"told":[],"watch":1} and {"client":0,"told":0,"watch":3}
{"client":0,"do":"undo"} | {"client":0,"undo":false}
# A view that is watched already has a further number, and is told at once.
watch 0 {"count":"page:p"} | {"client":0,"told":0,"watch":4}
"#;

// What others do is told when it comes, unless the client's own edits hide it; also after a connection was lost.
const REMOTE: &str = r#"
watch 0 {"box":"shape:a"} | {"client":0,"told":{"h":10,"w":10,"x":0,"y":0},"watch":0}
watch 1 {"tree":"page:p"} | {"client":1,"told":["shape:a"],"watch":0}
watch 0 {"count":"page:p"} | {"client":0,"told":1,"watch":1}
watch 1 {"box":"shape:a"} | {"client":1,"told":{"h":10,"w":10,"x":0,"y":0},"watch":1}
edit 0 {"shape:a":["patch",{"x":["put",5]}]} | {"client":0,"told":{"h":10,"w":10,"x":5,"y":0},"watch":0}
edit 1 {"shape:a":["patch",{"x":["put",7]}],"shape:b":["put",$G(b,a1,3)]} | {"client":1,"told":["shape:a","shape:b"],"watch":0} and {"client":1,"told":{"h":10,"w":10,"x":7,"y":0},"watch":1}
{"do":"handle","session":0}
{"do":"handle","session":1}
# Both edits come to both clients. The later one is client 1's own.
get 1 1
get 0 0 | {"client":0,"told":{"h":10,"w":10,"x":7,"y":0},"watch":0} and {"client":0,"told":2,"watch":1}
edit 0 {"shape:a":["patch",{"x":["put",9]}]} | {"client":0,"told":{"h":10,"w":10,"x":9,"y":0},"watch":0}
edit 1 {"shape:a":["patch",{"x":["put",8]}]} | {"client":1,"told":{"h":10,"w":10,"x":8,"y":0},"watch":1}
{"do":"handle","session":1}
# What client 0 owes is replayed over the other's edit, and it shows what it told.
get 0 0
{"client":0,"do":"cut"}
edit 1 {"shape:b":["remove"]} | {"client":1,"told":["shape:a"],"watch":0}
sync 1 1
# Back again it hears of the removal, and it still owes its edit.
open 0 2 | {"client":0,"told":1,"watch":1}
sync 0 2
get 1 1 | {"client":1,"told":{"h":10,"w":10,"x":9,"y":0},"watch":1}
{"client":0,"do":"undo"} | {"client":0,"undo":true} and {"client":0,"told":null,"watch":0} and {"client":0,"told":0,"watch":1}
{"do":"handle","session":2}
get 1 1 | {"client":1,"told":[],"watch":0} and {"client":1,"told":null,"watch":1}
"#;

// What the room discards of a client's edits is told back.
const DISCARDED: &str = r#"
client 3
{"client":2,"do":"connect","readonly":true}
sync 2 2
watch 2 {"box":"shape:a"} | {"client":2,"told":{"h":10,"w":10,"x":0,"y":0},"watch":0}
edit 2 {"shape:a":["patch",{"x":["put",9]}]} | {"client":2,"told":{"h":10,"w":10,"x":9,"y":0},"watch":0}
sync 2 2 | {"client":2,"told":{"h":10,"w":10,"x":0,"y":0},"watch":0}
"#;

// A client has no 65th watch, and its watches have numbers of their own.
const WATCHES: &str = r#"
times 64 {"client":1,"do":"watch","view":{"count":"page:p"}} | {"client":1,"told":1,"watch":0} and {"client":1,"told":1,"watch":1} and {"client":1,"told":1,"watch":2} and {"client":1,"told":1,"watch":3} and {"client":1,"told":1,"watch":4} and {"client":1,"told":1,"watch":5} and {"client":1,"told":1,"watch":6} and {"client":1,"told":1,"watch":7} and {"client":1,"told":1,"watch":8} and {"client":1,"told":1,"watch":9} and {"client":1,"told":1,"watch":10} and {"client":1,"told":1,"watch":11} and {"client":1,"told":1,"watch":12} and {"client":1,"told":1,"watch":13} and {"client":1,"told":1,"watch":14} and {"client":1,"told":1,"watch":15} and {"client":1,"told":1,"watch":16} and {"client":1,"told":1,"watch":17} and {"client":1,"told":1,"watch":18} and {"client":1,"told":1,"watch":19} and {"client":1,"told":1,"watch":20} and {"client":1,"told":1,"watch":21} and {"client":1,"told":1,"watch":22} and {"client":1,"told":1,"watch":23} and {"client":1,"told":1,"watch":24} and {"client":1,"told":1,"watch":25} and {"client":1,"told":1,"watch":26} and {"client":1,"told":1,"watch":27} and {"client":1,"told":1,"watch":28} and {"client":1,"told":1,"watch":29} and {"client":1,"told":1,"watch":30} and {"client":1,"told":1,"watch":31} and {"client":1,"told":1,"watch":32} and {"client":1,"told":1,"watch":33} and {"client":1,"told":1,"watch":34} and {"client":1,"told":1,"watch":35} and {"client":1,"told":1,"watch":36} and {"client":1,"told":1,"watch":37} and {"client":1,"told":1,"watch":38} and {"client":1,"told":1,"watch":39} and {"client":1,"told":1,"watch":40} and {"client":1,"told":1,"watch":41} and {"client":1,"told":1,"watch":42} and {"client":1,"told":1,"watch":43} and {"client":1,"told":1,"watch":44} and {"client":1,"told":1,"watch":45} and {"client":1,"told":1,"watch":46} and {"client":1,"told":1,"watch":47} and {"client":1,"told":1,"watch":48} and {"client":1,"told":1,"watch":49} and {"client":1,"told":1,"watch":50} and {"client":1,"told":1,"watch":51} and {"client":1,"told":1,"watch":52} and {"client":1,"told":1,"watch":53} and {"client":1,"told":1,"watch":54} and {"client":1,"told":1,"watch":55} and {"client":1,"told":1,"watch":56} and {"client":1,"told":1,"watch":57} and {"client":1,"told":1,"watch":58} and {"client":1,"told":1,"watch":59} and {"client":1,"told":1,"watch":60} and {"client":1,"told":1,"watch":61} and {"client":1,"told":1,"watch":62} and {"client":1,"told":1,"watch":63}
watch 1 {"tree":"page:p"} | Limit
watch 2 {"tree":"page:p"} | NoSuchClient
watch 0 {"tree":"page:p"} | {"client":0,"told":["shape:a"],"watch":0}
edit 1 {"shape:a":["patch",{"x":["put",1]}]}
"#;

// A query of each form, asked of what its client shows.
const QUERIES: &str = r#"
edit 0 {"shape:b":["put",$G(b,a1,3)],"shape:c":["put",$G(c,a2,7,50)]}
query 0 shape ["eq","x",3] | {"client":0,"ids":["shape:b"],"query":true}
query 0 shape ["eq","meta",{}] | {"client":0,"ids":["shape:a","shape:b","shape:c"],"query":true}
query 0 shape ["neq","x",3] | {"client":0,"ids":["shape:a","shape:c"],"query":true}
query 0 shape ["gt","x",0] | {"client":0,"ids":["shape:b","shape:c"],"query":true}
query 0 shape ["gt","index",0] | {"client":0,"ids":[],"query":true}
query 0 shape ["and",[["gt","x",0],["eq","opacity",50]]] | {"client":0,"ids":["shape:c"],"query":true}
query 0 shape ["or",[["eq","x",0],["eq","opacity",50]]] | {"client":0,"ids":["shape:a","shape:c"],"query":true}
query 0 shape ["not",["gt","x",0]] | {"client":0,"ids":["shape:a"],"query":true}
query 0 shape ["and",[]] | {"client":0,"ids":["shape:a","shape:b","shape:c"],"query":true}
query 0 shape ["or",[]] | {"client":0,"ids":[],"query":true}
# A field that isn't there is no other than the value.
query 0 shape ["neq","name","P"] | {"client":0,"ids":[],"query":true}
query 0 shape ["not",["eq","name","P"]] | {"client":0,"ids":["shape:a","shape:b","shape:c"],"query":true}
query 0 page ["eq","name","P"] | {"client":0,"ids":["page:p"],"query":true}
query 0 board ["and",[]] | {"client":0,"ids":[],"query":true}
# A presence isn't in the document.
{"client":0,"do":"presence","record":$R(me,u)}
query 0 instance_presence ["and",[]] | {"client":0,"ids":[],"query":true}
# The other client shows another document.
query 1 shape ["and",[]] | {"client":1,"ids":["shape:a"],"query":true}
query 2 shape ["and",[]] | NoSuchClient
"#;

// A client of an older version watches and asks what it shows at its version.
const OLDER: &str = r#"
client 3
client 1
open 0 0
open 1 1
watch 1 {"count":"page:p"} | {"client":1,"told":0,"watch":0}
edit 0 {"page:p":["put",$P],"shape:a":["put",$G(a,a0,4,50)]}
sync 0 0
get 1 1 | {"client":1,"told":1,"watch":0}
query 0 shape ["eq","opacity",50] | {"client":0,"ids":["shape:a"],"query":true}
query 1 shape ["eq","opacity",50] | {"client":1,"ids":[],"query":true}
query 1 shape ["eq","alpha",5] | {"client":1,"ids":["shape:a"],"query":true}
"#;

// What is watched and asked.
const VIEWS: [Script; 6] = [
    Script {
        shows: "tells what its client does",
        header: HEADER,
        parts: &[OWN],
    },
    Script {
        shows: "tells what others do",
        header: HEADER,
        parts: &[BASE, REMOTE],
    },
    Script {
        shows: "tells back what is discarded",
        header: HEADER,
        parts: &[BASE, DISCARDED],
    },
    Script {
        shows: "numbers 64 watches",
        header: HEADER,
        parts: &[BASE, WATCHES],
    },
    Script {
        shows: "asks what its client shows",
        header: HEADER,
        parts: &[BASE, QUERIES],
    },
    Script {
        shows: "asks at the version of its client",
        header: HEADER,
        parts: &[OLDER],
    },
];

#[test]
fn tells_and_answers_each_client(rt: HostRuntime) -> Result<(), Fail> {
    plays(&rt, rt.alloc(), &VIEWS)
}
