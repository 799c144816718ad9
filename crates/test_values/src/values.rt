//! What bytes are read as: the value, told by the compact text that is printed of it, or the first fault.
use crate::played::{Call, plays, text_of_parts};
use rooms_val::Val;
use std::alloc::Global;
use std::test::Fail;
use test_with_cases::val_text;

// In each row a text and what is printed of its value, where `=` stands for the text, or the fault's name.
const NUMBERS: &str = r#"
0 | =
-1 | =
9007199254740991 | =
-9007199254740991 | =
9007199254740992 | OutOfRange
-9007199254740992 | OutOfRange
18446744073709551615 | OutOfRange
18446744073709551616 | NotWhole
-9223372036854775808 | OutOfRange
-9223372036854775809 | NotWhole
# Numbers that aren't written as whole ones, up to the ends of the floats.
-0 | NotWhole
1.0 | NotWhole
1E0 | NotWhole
1e308 | NotWhole
1e309 | BadJson
1e-400 | NotWhole
0e400 | NotWhole
# No numbers of JSON.
01 | BadJson
+1 | BadJson
- | BadJson
.5 | BadJson
1. | BadJson
1e | BadJson
NaN | BadJson
"#;

const TEXTS: &str = r#"
"" | =
"a b" | =
"\"\\\/\b\f\n\r\t" | "\"\\/\b\f\n\r\t"
"\u0022\u005c\u002f\u0008\u000c\u000a\u000d\u0009" | "\"\\/\b\f\n\r\t"
# Control characters are escaped, and their neighbours aren't.
"\u0000\u0001\u001F" | "\u0000\u0001\u001f"
"\u0020\u007e" | " ~"
"\u00e9\u00E9é\u20ac" | "ééé€"
"\ud83d\ude00\uD83D\uDE00😀" | "😀😀😀"
# Lone surrogates.
"\ud800" | BadJson
"\udc00" | BadJson
"\ud83dx" | BadJson
"\ud83d\u0041" | BadJson
"\ude00\ud83d" | BadJson
{"\ud800":1} | BadJson
# No escapes, and no whole texts.
"\x41" | BadJson
"\0" | BadJson
"\u004" | BadJson
"\u00g1" | BadJson
" | BadJson
"a\" | BadJson
'a' | BadJson
"#;

// Characters that this file can't show.
const BARE: &str = "\"\u{7f}\u{80}\u{2028}\u{ffff}\u{10000}\u{10ffff}\" | =
\"\u{0}\" | BadJson
\"\t\" | BadJson
\"\u{1f}\" | BadJson
\u{c}null | BadJson
\u{a0}null | BadJson
\u{feff}null | BadJson
null\u{0} | BadJson
{\"\u{10000}\":1,\"\u{ffff}\":2} | {\"\u{ffff}\":2,\"\u{10000}\":1}
 \t null \t  | null";

const LISTS_AND_MAPS: &str = r#"
[null,true,false,0,"",[],{}] | =
 { "a" : [ 1 , { } , [ ] ] }  | {"a":[1,{},[]]}
# Keys rise by their bytes, and the last value of a key stands.
{"b":1,"a":2,"":3,"B":4,"aa":5,"é":6,"10":9,"9":10} | {"":3,"10":9,"9":10,"B":4,"a":2,"aa":5,"b":1,"é":6}
[{"b":[{"d":1,"c":2}],"a":0}] | [{"a":0,"b":[{"c":2,"d":1}]}]
{"a":1,"b":2,"\u0061":3} | {"a":3,"b":2}
# The value that is left alone is looked at for its numbers, while all has to be JSON.
{"a":1.5,"a":2} | {"a":2}
{"a":2,"a":1.5} | NotWhole
{"a":9007199254740992,"a":2} | {"a":2}
{"a":1e400,"a":2} | BadJson
{"a":"\ud800","a":2} | BadJson
# The first fault in the order of the faults, wherever it stands.
[9007199254740992,1.5] | NotWhole
[1.5,1e400] | BadJson
[1.5 | BadJson
# No JSON.
nul | BadJson
True | BadJson
null null | BadJson
[1,] | BadJson
[1 2] | BadJson
[1} | BadJson
{"a"} | BadJson
{"a":1,} | BadJson
{1:1} | BadJson
/**/null | BadJson
"#;

// Parts that blanks part, where `n*` stands before one that is there n times.
const REPEATED: &str = r#"
63*[ 1 63*] | =
63*{"a": 1 63*} | =
64*[ 1 64*] | =
64*{"a": 1 64*} | =
65*[ 1 65*] | TooDeep
65*{"a": 1 65*} | TooDeep
127*[ 1 127*] | TooDeep
127*{"a": 1 127*} | TooDeep
128*[ 1 128*] | BadJson
128*{"a": 1 128*} | BadJson
5000*[ 1 5000*] | BadJson
5000*{"a": 1 5000*} | BadJson
# An empty list or map is a level too.
63*[ [] 63*] | =
63*{"a": [] 63*} | =
64*[ {} 64*] | TooDeep
64*{"a": {} 64*} | TooDeep
127*[ {} 127*] | BadJson
127*{"a": {} 127*} | BadJson
# The faults of a number come before the depth, and after what is no JSON.
127*[ 1.5 127*] | NotWhole
127*{"a": 1.5 127*} | NotWhole
127*[ 9007199254740992 127*] | OutOfRange
127*{"a": 9007199254740992 127*} | OutOfRange
128*[ 1.5 128*] | BadJson
128*{"a": 1.5 128*} | BadJson
# What another value of its key replaces is no level of the value, but one of the text.
{"a": 126*[ 126*] ,"a":1} | {"a":1}
# Long texts, also where the fault comes last.
[ 50000*0, 0] | =
50000*0, 0] | BadJson
[ [ 50000*0, 0] | BadJson
"#;

// Nothing, line breaks, and bytes that are no UTF-8.
const BYTES: [(&[u8], &str); 8] = [
    (b"", "BadJson"),
    (b"\nnull\r\n", "null"),
    (b"\"\xff\"", "BadJson"),
    (b"\"\xc3\"", "BadJson"),
    (b"\"\xc0\x80\"", "BadJson"),
    (b"\"\xed\xa0\x80\"", "BadJson"),
    (b"\"\xf4\x90\x80\x80\"", "BadJson"),
    (b"{\"a\":\"\xff\",\"a\":1}", "BadJson"),
];

#[test]
fn values_are_read_or_the_first_fault_is_named(rt: HostRuntime) -> Result<(), Fail> {
    plays(&rt, rt.alloc(), Call::Read, NUMBERS)?;
    plays(&rt, rt.alloc(), Call::Read, TEXTS)?;
    plays(&rt, rt.alloc(), Call::Read, BARE)?;
    plays(&rt, rt.alloc(), Call::Read, LISTS_AND_MAPS)?;
    plays(&rt, rt.alloc(), Call::ReadRepeated, REPEATED)?;
    for (bytes, wanted) in BYTES.iter() {
        let answer = read_text(rt.alloc(), bytes)?;
        assert_eq!(rt; answer.as_str(), *wanted);
    }
    Ok(())
}

/// What bytes are read as: what is printed of the value, or `=` for the bytes themselves, or the fault's name.
pub(crate) fn read_text(alloc: Global, bytes: &[u8]) -> Result<String, Fail> {
    let answer = match Val::read(alloc, bytes) {
        Ok(val) => val_text(alloc, &val)?,
        Err(fault) => format!(in alloc; "{fault:?}")?,
    };
    if answer.as_bytes() == bytes {
        return Ok(String::from_str(alloc, "=")?);
    }
    Ok(answer)
}

/// What a text of parts is read as.
pub(crate) fn read_repeated(alloc: Global, parts: &str) -> Result<String, Fail> {
    let text = text_of_parts(alloc, parts)?;
    read_text(alloc, text.as_bytes())
}
