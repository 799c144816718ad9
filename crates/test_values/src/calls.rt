//! What the calls on values, lists, maps and texts answer where memory is ample.
use crate::played::{Call, plays, text_of_parts};
use rooms_val::{Fields, Text, Val, Vals};
use std::alloc::Global;
use std::test::Fail;
use test_with_cases::{val_text, value};

// A value, its kind, and what it weighs: the bytes of a text count, and not its characters or its escapes.
const WEIGHTS: &str = r#"
null | Null 1
false | Bool 1
-9007199254740991 | Int 1
"é😀\n" | Text 8
[null,5,["ab"]] | List 7
{"key":[1,2],"é":{"x":"yz"}} | Map 14
"#;

// Texts around the bound at which copies begin to share, in parts, of which `22*a` is 22 times `a`. A text of characters of
// four bytes has 20 bytes and 1 to 3 more.
const TEXTS: &str = r#"
a | kept
21*a b | kept
22*a b | kept
8191*a c | kept
😀😀😀😀😀é | kept
😀😀😀😀😀€ | kept
😀😀😀😀😀😀 | kept
é | kept
 | kept
"#;

// The steps are those of `scripts`.
const MAP: &str = r#"
map | {}
put b 1 | -
put é [2] | -
put . 3 | -
put b 4 | 1
copy | copied
take b | 4
take b | -
get é | [2]
turn 0 | turned
of b | 4
show | {"":3,"b":4,"é":[2]}
turn 0 | turned
show | {"":3,"é":[2]}
"#;

// Keys around the bounds of words and of what stands in place: some differ in the last byte alone, in a zero byte at the end or in
// the last byte of a character. They are looked up among 11 keys, and then among 17.
const KEYS: &str = "
map | {}
put abcdefg 7 | -
put abcdefg\0 0 | -
put abcdefgh 8 | -
put abcdefghi 9 | -
put abcdefghj 10 | -
put abcdefghijklmnop 16 | -
put abcdefghijklmnopqrstu 21 | -
put abcdefghijklmnopqrstuv 22 | -
put abcdefghijklmnopqrstuvw 23 | -
put 😀😀 1 | -
put 😀😁 2 | -
get abcdefg | 7
get abcdefg\0 | 0
get abcdefgh | 8
get abcdefghi | 9
get abcdefghj | 10
get abcdefghijklmnop | 16
get abcdefghijklmnopqrstu | 21
get abcdefghijklmnopqrstuv | 22
get abcdefghijklmnopqrstuvw | 23
get 😀😀 | 1
get 😀😁 | 2
get abcdef | -
get abcdefg\0\0 | -
get abcdefghk | -
get abcdefghijklmno | -
get abcdefghijklmnopqrstu\0 | -
get abcdefghijklmnopqrstuvx | -
get 😀 | -
get 😀😂 | -
put k1 31 | -
put k2 32 | -
put k3 33 | -
put k4 34 | -
put k5 35 | -
put k6 36 | -
get abcdefg | 7
get abcdefg\0 | 0
get abcdefgh | 8
get abcdefghi | 9
get abcdefghj | 10
get abcdefghijklmnop | 16
get abcdefghijklmnopqrstu | 21
get abcdefghijklmnopqrstuv | 22
get abcdefghijklmnopqrstuvw | 23
get 😀😀 | 1
get 😀😁 | 2
get abcdef | -
get abcdefg\0\0 | -
get abcdefghk | -
get abcdefghijklmno | -
get abcdefghijklmnopqrstu\0 | -
get abcdefghijklmnopqrstuvx | -
get 😀 | -
get 😀😂 | -
put abcdefg\0 5 | 0
take abcdefg | 7
get abcdefg\0 | 5
get abcdefg | -
";

const LIST: &str = r#"
list | []
push 3 | pushed
push [] | pushed
copy | copied
turn 0 | turned
at 1 | []
at 2 | -
turn 0 | turned
show | [3,[]]
"#;

// A change of a map changes none of its copies, and one of a copy not the map.
const MAP_COPIES: &str = r#"
map | {}
put a 1 | -
put b 2 | -
copy | copied
copy | copied
turn 0 | turned
put a 3 | 1
turn 0 | turned
take b | 2
put c 4 | -
show | {"a":1,"c":4}
turn 0 | turned
show | {"a":3,"b":2}
turn 1 | turned
show | {"a":1,"b":2}
"#;

const LIST_COPIES: &str = r#"
list | []
push 1 | pushed
copy | copied
turn 0 | turned
push 2 | pushed
turn 0 | turned
push 3 | pushed
copy | copied
into_vec | 2
turn 0 | turned
show | [1,2]
turn 1 | turned
show | [1,3]
"#;

#[test]
fn values_are_changed_and_copied(rt: HostRuntime) -> Result<(), Fail> {
    plays(&rt, rt.alloc(), Call::Copy, WEIGHTS)?;
    plays(&rt, rt.alloc(), Call::Keep, TEXTS)?;
    plays(&rt, rt.alloc(), Call::Script, MAP)?;
    plays(&rt, rt.alloc(), Call::Script, KEYS)?;
    plays(&rt, rt.alloc(), Call::Script, LIST)?;
    plays(&rt, rt.alloc(), Call::Script, MAP_COPIES)?;
    plays(&rt, rt.alloc(), Call::Script, LIST_COPIES)
}

/// The kind of a value and the weight of its copy, if the copy is printed as the value was.
pub(crate) fn weigh_copy(alloc: Global, text: &str) -> Result<String, Fail> {
    let val = value(alloc, text)?;
    let copy = val.copy(alloc)?;
    let shown = val_text(alloc, &copy)?;
    if shown.as_str() != text {
        return Ok(shown);
    }
    Ok(format!(in alloc; "{:?} {}", val.kind(), copy.weight())?)
}

/// Whether a text and its copy have the characters of which they were made, the copy also without the text.
pub(crate) fn keep_text(alloc: Global, parts: &str) -> Result<String, Fail> {
    let wanted = text_of_parts(alloc, parts)?;
    let text = Text::of(alloc, wanted.as_str())?;
    let copy = text.copy(alloc)?;
    let is_kept = text.as_str() == wanted.as_str();
    drop(text);
    let told = if is_kept && copy.as_str() == wanted.as_str() {
        "kept"
    } else {
        "another text"
    };
    Ok(String::from_str(alloc, told)?)
}

// What has this type may go to another thread, and be read by several.
fn goes_to_threads<T: Send + Sync>() {}

#[test]
fn values_go_to_threads(_rt: HostRuntime) {
    goes_to_threads::<Text>();
    goes_to_threads::<Vals>();
    goes_to_threads::<Fields>();
    goes_to_threads::<Val>();
}
