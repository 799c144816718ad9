//! A record of each type of a whiteboard, at the versions at which it is admitted.
use rooms_val::Val;
use std::alloc::Global;
use std::test::Fail;
use test_with_cases::{cells, rows, value};

/// The versions, the id, the scope and the record.
pub(crate) const RECORDS: &str = r#"
1 2 3 4 5 | document:d | Document | {"gridSize":1000,"id":"document:d","meta":{"any":[1]},"name":"","typeName":"document"}
1 2 3 4 | page:p | Document | {"id":"page:p","index":"a0","meta":{},"name":"P","typeName":"page"}
5 | page:p | Document | {"hidden":false,"id":"page:p","index":"a0","meta":{},"name":"P","typeName":"page"}
1 2 3 | asset:i | Document | {"id":"asset:i","meta":{},"props":{"h":20,"mimeType":null,"name":"i","src":"a","w":0},"type":"image","typeName":"asset"}
4 5 | asset:i | Document | {"id":"asset:i","meta":{},"props":{"dims":{"h":20,"w":0},"mimeType":null,"name":"i","src":"a"},"type":"image","typeName":"asset"}
1 2 | binding:b | Document | {"fromId":"shape:w","id":"binding:b","meta":{},"props":{"anchorX":500,"anchorY":1000,"isExact":true,"terminal":"start"},"toId":"shape:a","type":"arrow","typeName":"binding"}
3 4 5 | binding:b | Document | {"fromId":"shape:w","id":"binding:b","meta":{},"props":{"anchor":{"x":500,"y":1000},"isExact":true,"terminal":"start"},"toId":"shape:a","type":"arrow","typeName":"binding"}
1 2 3 4 5 | camera:c | Session | {"id":"camera:c","meta":{},"typeName":"camera","x":-9007199254740991,"y":0,"z":100000}
1 2 3 4 5 | instance:i | Session | {"currentPageId":"page:p","id":"instance:i","meta":{},"typeName":"instance"}
1 2 3 4 5 | instance_presence:me | Presence | {"color":"red","currentPageId":"page:p","cursor":{"x":1,"y":2},"id":"instance_presence:me","meta":{},"selectedShapeIds":["shape:a"],"typeName":"instance_presence","userName":"U"}
1 | shape:geo | Document | {"alpha":10,"id":"shape:geo","index":"a0","isLocked":false,"meta":{},"parentId":"page:p","props":{"color":"black","fill":"none","geo":"rectangle","h":10,"size":"m","text":"","w":10},"rotation":0,"type":"geo","typeName":"shape","x":0,"y":0}
2 | shape:geo | Document | {"id":"shape:geo","index":"a0","isLocked":false,"meta":{},"opacity":100,"parentId":"page:p","props":{"color":"black","fill":"none","geo":"rectangle","h":10,"size":"m","text":"","w":10},"rotation":0,"type":"geo","typeName":"shape","x":0,"y":0}
3 4 5 | shape:geo | Document | {"id":"shape:geo","index":"a0","isLocked":false,"meta":{},"opacity":100,"parentId":"page:p","props":{"color":"black","dash":"draw","fill":"none","geo":"rectangle","h":10,"size":"m","text":"","w":10},"rotation":0,"type":"geo","typeName":"shape","x":0,"y":0}
1 | shape:draw | Document | {"alpha":10,"id":"shape:draw","index":"a0","isLocked":false,"meta":{},"parentId":"page:p","props":{"color":"light-violet","isClosed":false,"points":[{"x":1,"y":-1}],"size":"xl"},"rotation":0,"type":"draw","typeName":"shape","x":0,"y":0}
2 3 4 5 | shape:arrow | Document | {"id":"shape:arrow","index":"a0","isLocked":false,"meta":{},"opacity":100,"parentId":"page:p","props":{"bend":-5,"color":"white","end":{"x":1,"y":1},"size":"s","start":{"x":0,"y":0},"text":"a"},"rotation":0,"type":"arrow","typeName":"shape","x":0,"y":0}
2 3 4 5 | shape:text | Document | {"id":"shape:text","index":"a0","isLocked":false,"meta":{},"opacity":100,"parentId":"page:p","props":{"autoSize":true,"color":"red","h":1,"size":"l","text":"t","w":1},"rotation":0,"type":"text","typeName":"shape","x":0,"y":0}
2 3 4 5 | shape:frame | Document | {"id":"shape:frame","index":"a0","isLocked":false,"meta":{},"opacity":100,"parentId":"page:p","props":{"h":1,"name":"F","w":1},"rotation":0,"type":"frame","typeName":"shape","x":0,"y":0}
2 3 4 5 | shape:group | Document | {"id":"shape:group","index":"a0","isLocked":false,"meta":{},"opacity":100,"parentId":"page:p","props":{},"rotation":0,"type":"group","typeName":"shape","x":0,"y":0}
2 3 4 5 | shape:note | Document | {"id":"shape:note","index":"a0","isLocked":false,"meta":{},"opacity":100,"parentId":"page:p","props":{"color":"grey","size":"m","text":"n"},"rotation":0,"type":"note","typeName":"shape","x":0,"y":0}
2 3 4 5 | shape:image | Document | {"id":"shape:image","index":"a0","isLocked":false,"meta":{},"opacity":100,"parentId":"page:p","props":{"assetId":null,"h":1,"w":1},"rotation":0,"type":"image","typeName":"shape","x":0,"y":0}
"#;

/// The record of an id at a version.
pub(crate) fn record_at(alloc: Global, version: &str, id: &str) -> Result<Val, Fail> {
    for row in &rows(alloc, RECORDS)? {
        let [versions, found, _, text] = cells(row);
        if found == id && versions.contains(version) {
            return value(alloc, text);
        }
    }
    Err(Fail::from("a record was wanted"))
}
