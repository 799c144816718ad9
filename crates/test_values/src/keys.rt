//! Which texts are index keys, the fault that is named of the others, and the keys between two.
use crate::played::{Call, plays, text_of_parts};
use index_keys::{between, check, several};
use std::alloc::Global;
use std::test::Fail;
use test_with_cases::cells;

// A text, and whether it is a key.
const KEYS: &str = r#"
a0 | Ok(())
Zz | Ok(())
b00 | Ok(())
a0V | Ok(())
zzzzzzzzzzzzzzzzzzzzzzzzzzz | Ok(())
A00000000000000000000000001 | Ok(())
A000000000000000000000000001 | Ok(())
# Heads: nothing, and what is no letter.
 | Err(BadHead)
0 | Err(BadHead)
@0 | Err(BadHead)
é0 | Err(BadHead)
# Integer parts that are one short, in characters and not in bytes.
Z | Err(ShortInteger)
b0 | Err(ShortInteger)
bé | Err(ShortInteger)
zzzzzzzzzzzzzzzzzzzzzzzzzz | Err(ShortInteger)
# Characters that are no digits.
a- | Err(BadDigit)
a[ | Err(BadDigit)
a0é | Err(BadDigit)
a00 | Err(TrailingZero)
a10 | Err(TrailingZero)
A000000000000000000000000000 | Err(TrailingZero)
A00000000000000000000000000 | Err(SmallestInteger)
# The first of two faults is named.
-10 | Err(BadHead)
b- | Err(ShortInteger)
a-0 | Err(BadDigit)
"#;

// Two ends, each a key or `.` for none, and what stands between them.
const BETWEEN: &str = r#"
. | . | Ok("a0")
# Below a key.
. | a0 | Ok("Zz")
. | a0V | Ok("a0")
. | b00 | Ok("az")
. | Zz | Ok("Zy")
. | Z0 | Ok("Yzz")
. | A00000000000000000000000002 | Ok("A00000000000000000000000001")
. | A000000000000000000000000001 | Ok("A000000000000000000000000000V")
. | A00000000000000000000000000V | Ok("A00000000000000000000000000G")
# Above a key, and at the end of each kind of head.
Zz | . | Ok("a0")
a0 | . | Ok("a1")
a0V | . | Ok("a1")
az | . | Ok("b00")
bzz | . | Ok("c000")
Yzz | . | Ok("Z0")
Azzzzzzzzzzzzzzzzzzzzzzzzzz | . | Ok("B0000000000000000000000000")
yzzzzzzzzzzzzzzzzzzzzzzzzz | . | Ok("z00000000000000000000000000")
zzzzzzzzzzzzzzzzzzzzzzzzzzz | . | Ok("zzzzzzzzzzzzzzzzzzzzzzzzzzzV")
# Between two of one integer part.
a0 | a0V | Ok("a0G")
a0 | a001 | Ok("a000V")
a0 | a01V | Ok("a01")
a01 | a02 | Ok("a01V")
a01z | a02 | Ok("a01zV")
a0V1 | a0V3 | Ok("a0V2")
a0V | a0V1 | Ok("a0V0V")
# Between two of different integer parts.
a0 | a1 | Ok("a0V")
a0V | a1 | Ok("a0l")
a0 | a1V | Ok("a1")
Zz | a0 | Ok("ZzV")
Zz | a01 | Ok("a0")
az | b00 | Ok("azV")
# Refusals, the first where there are several.
a10 | . | Err(NotKey)
 | a0 | Err(NotKey)
a1 | a00 | Err(NotKey)
a0 | a0 | Err(NotLess)
a1 | Zz | Err(NotLess)
. | A00000000000000000000000001 | Err(NoRoom)
# No key has 257 characters.
a0 254*z | a1 | Err(KeyTooLong)
a0 254*z | . | Ok("a1")
"#;

// Two ends, how many keys are wanted, and the keys.
const SEVERAL: &str = r#"
a0 | a1 | 3 | Ok(["a0G", "a0V", "a0l"])
a0 | a1 | 4 | Ok(["a08", "a0G", "a0V", "a0l"])
. | . | 3 | Ok(["a0", "a1", "a2"])
ay | . | 3 | Ok(["az", "b00", "b01"])
. | a1 | 3 | Ok(["Zy", "Zz", "a0"])
# None of them: no end is looked at.
a1 | - | 0 | Ok([])
# The refusal of the first that refuses.
a0 | a0 | 2 | Err(NotLess)
. | A00000000000000000000000003 | 3 | Err(NoRoom)
"#;

// The last key of a head and the first one of the next head, each of which stands beside the other.
const HEADS: &str = r#"
A 26*z | B 25*0 | =
B 25*z | C 24*0 | =
C 24*z | D 23*0 | =
D 23*z | E 22*0 | =
E 22*z | F 21*0 | =
F 21*z | G 20*0 | =
G 20*z | H 19*0 | =
H 19*z | I 18*0 | =
I 18*z | J 17*0 | =
J 17*z | K 16*0 | =
K 16*z | L 15*0 | =
L 15*z | M 14*0 | =
M 14*z | N 13*0 | =
N 13*z | O 12*0 | =
O 12*z | P 11*0 | =
P 11*z | Q 10*0 | =
Q 10*z | R 9*0 | =
R 9*z | S 8*0 | =
S 8*z | T 7*0 | =
T 7*z | U 6*0 | =
U 6*z | V 5*0 | =
V 5*z | W 4*0 | =
W 4*z | X 3*0 | =
X 3*z | Y 2*0 | =
Y 2*z | Z 1*0 | =
Z 1*z | a 1*0 | =
a 1*z | b 2*0 | =
b 2*z | c 3*0 | =
c 3*z | d 4*0 | =
d 4*z | e 5*0 | =
e 5*z | f 6*0 | =
f 6*z | g 7*0 | =
g 7*z | h 8*0 | =
h 8*z | i 9*0 | =
i 9*z | j 10*0 | =
j 10*z | k 11*0 | =
k 11*z | l 12*0 | =
l 12*z | m 13*0 | =
m 13*z | n 14*0 | =
n 14*z | o 15*0 | =
o 15*z | p 16*0 | =
p 16*z | q 17*0 | =
q 17*z | r 18*0 | =
r 18*z | s 19*0 | =
s 19*z | t 20*0 | =
t 20*z | u 21*0 | =
u 21*z | v 22*0 | =
v 22*z | w 23*0 | =
w 23*z | x 24*0 | =
x 24*z | y 25*0 | =
y 25*z | z 26*0 | =
"#;

// Two ends, and where 300 keys are put, one after the other: each above or below the one before it, or all at once.
const PLACES: &str = r#"
. | . | up | 300 rise
. | . | down | 300 fall
a0 | a1 | up | 300 rise
a0 | a1 | down | 300 fall
a0 | a0V | together | 300 rise
"#;

#[test]
fn keys_are_told_and_found_between_two(rt: HostRuntime) -> Result<(), Fail> {
    plays(&rt, rt.alloc(), Call::Check, KEYS)?;
    plays(&rt, rt.alloc(), Call::Between, BETWEEN)?;
    plays(&rt, rt.alloc(), Call::Several, SEVERAL)?;
    plays(&rt, rt.alloc(), Call::Heads, HEADS)?;
    plays(&rt, rt.alloc(), Call::Places, PLACES)
}

/// Whether a text is a key.
pub(crate) fn check_key(alloc: Global, text: &str) -> Result<String, Fail> {
    Ok(format!(in alloc; "{:?}", check(text))?)
}

// The end that a cell names.
fn end(cell: &str) -> Option<&str> {
    if cell == "." { None } else { Some(cell) }
}

/// The key between the ends that a row names.
pub(crate) fn one_between(alloc: Global, row: &str) -> Result<String, Fail> {
    let [below, above, ..] = cells(row);
    let below = text_of_parts(alloc, below)?;
    let found = between(alloc, end(below.as_str()), end(above));
    Ok(format!(in alloc; "{found:?}")?)
}

/// The keys between the ends that a row names.
pub(crate) fn several_between(alloc: Global, row: &str) -> Result<String, Fail> {
    let [below, above, count, ..] = cells(row);
    let found = several(alloc, end(below), end(above), count.parse::<u32>()?);
    Ok(format!(in alloc; "{found:?}")?)
}

/// What stands above the last key of a head and below the first of the next: `=`, if that is the other of the two.
pub(crate) fn beside_heads(alloc: Global, row: &str) -> Result<String, Fail> {
    let [last, first, ..] = cells(row);
    let last = text_of_parts(alloc, last)?;
    let first = text_of_parts(alloc, first)?;
    let up = between(alloc, Some(last.as_str()), None)?;
    let down = between(alloc, None, Some(first.as_str()))?;
    if up.as_str() == first.as_str() && down.as_str() == last.as_str() {
        return Ok(String::from_str(alloc, "=")?);
    }
    Ok(format!(in alloc; "{up} and {down}")?)
}

/// How the keys lie that are put where a row says.
pub(crate) fn order_of_keys(alloc: Global, row: &str) -> Result<String, Fail> {
    let [below, above, place, ..] = cells(row);
    let told = match place {
        "up" if rises(alloc, end(below), end(above))? => "300 rise",
        "down" if falls(alloc, end(below), end(above))? => "300 fall",
        "together" if rises_at_once(alloc, below, above)? => "300 rise",
        _ => "another order",
    };
    Ok(String::from_str(alloc, told)?)
}

// Whether a text is a key, and lies above one end and below another.
fn is_between(key: &str, below: Option<&str>, above: Option<&str>) -> bool {
    if let Some(below) = below
        && key <= below
    {
        return false;
    }
    if let Some(above) = above
        && above <= key
    {
        return false;
    }
    check(key).is_ok()
}

// Whether 300 keys are put, each above the one before it.
fn rises(alloc: Global, below: Option<&str>, above: Option<&str>) -> Result<bool, Fail> {
    let mut last = String::new(alloc);
    for place in 0..300 {
        let low = if place == 0 {
            below
        } else {
            Some(last.as_str())
        };
        let key = between(alloc, low, above)?;
        if !is_between(key.as_str(), low, above) {
            return Ok(false);
        }
        last = key;
    }
    Ok(true)
}

// Whether 300 keys are put, each below the one before it.
fn falls(alloc: Global, below: Option<&str>, above: Option<&str>) -> Result<bool, Fail> {
    let mut last = String::new(alloc);
    for place in 0..300 {
        let high = if place == 0 {
            above
        } else {
            Some(last.as_str())
        };
        let key = between(alloc, below, high)?;
        if !is_between(key.as_str(), below, high) {
            return Ok(false);
        }
        last = key;
    }
    Ok(true)
}

// Whether 300 keys are found at once, each above the one before it.
fn rises_at_once(alloc: Global, below: &str, above: &str) -> Result<bool, Fail> {
    let keys = several(alloc, Some(below), Some(above), 300)?;
    let mut last = below;
    for key in keys.iter() {
        if !is_between(key.as_str(), Some(last), Some(above)) {
            return Ok(false);
        }
        last = key.as_str();
    }
    Ok(keys.len() == 300)
}
