//! What a number goes back to by marks, undo, redo and bail.
ghost use Rattle.std.specs.Prelude.{◌≡◌, false, IfOk};
ghost use Rattle.undo_marks.specs.Inverses.{diff_has_append};

use field_ops::{Diff, RecordOp};
use rooms_val::{Mem, Text, Val};
use std::alloc::Global;
use std::test::Fail;
use test_with_cases::{cells, rows};
use undo_marks::{BailFault, Marks};

// Steps, each with the number after it, or what is said where there is nothing to do. It begins at 0.
const STEPS: &str = r#"
undo | nothing
redo | nothing
bail m | no mark
edit 1 | 1
mark m | 1
edit 2 | 2
edit 3 | 3
edit 4 | 4
undo | 1
redo | 4
bail m | 1
undo | 0
undo | nothing
bail m | no mark
# A redo brings back the marks that the undo dropped.
redo | 1
mark m | 1
mark n | 1
edit 5 | 5
mark n | 5
undo | 1
undo | 0
redo | 1
redo | 5
# The last mark of a name counts, and a bail forgets what could be done again.
bail n | 5
bail n | 1
redo | nothing
# So does an edit.
edit 6 | 6
undo | 1
edit 7 | 7
redo | nothing
bail m | 1
bail m | no mark
"#;

// The diff that makes the number this one.
fn put(alloc: Global, number: i64) -> Mem<Diff>
    ensures { IfOk result (λ diff. diff_has_append diff ≡ false) }
{
    let mut diff = Diff::new(alloc);
    diff.put(Text::of(alloc, "a")?, RecordOp::Put(Val::Int(number)))?;
    Ok(diff)
}

// The number that a diff makes.
fn number_in(diff: &Diff) -> Option<i64> {
    match diff.get("a") {
        Some(RecordOp::Put(Val::Int(number))) => Some(*number),
        _ => None,
    }
}

// An edit from one number to another.
fn edit(alloc: Global, marks: &mut Marks, from: i64) -> Mem<()> {
    let inverse = put(alloc, from)?;
    marks.edit(alloc)?;
    marks.record(inverse);
    Ok(())
}

// What an undo makes of a number.
fn undo(alloc: Global, marks: &mut Marks, from: i64) -> Mem<Option<i64>> {
    let inverse = put(alloc, from)?;
    let Some(diff) = marks.undo(alloc)? else {
        return Ok(None);
    };
    marks.undone(inverse);
    Ok(number_in(&diff))
}

// What a redo makes of a number.
fn redo(alloc: Global, marks: &mut Marks, from: i64) -> Mem<Option<i64>> {
    let inverse = put(alloc, from)?;
    let Some(diff) = marks.redo(alloc)? else {
        return Ok(None);
    };
    marks.redone(inverse);
    Ok(number_in(&diff))
}

// The number after a step, or what is said where there is nothing to do.
fn after(
    alloc: Global,
    marks: &mut Marks,
    step: &str,
    number: i64,
) -> Result<Result<i64, &'static str>, Fail> {
    let (word, rest) = step.split_once(' ').unwrap_or((step, ""));
    match word {
        "edit" => {
            edit(alloc, marks, number)?;
            Ok(Ok(rest.parse::<i64>()?))
        }
        "mark" => {
            marks.mark(Text::of(alloc, rest)?)?;
            Ok(Ok(number))
        }
        "undo" => Ok(undo(alloc, marks, number)?.ok_or("nothing")),
        "redo" => Ok(redo(alloc, marks, number)?.ok_or("nothing")),
        _ => match marks.bail(alloc, rest) {
            Ok(diff) => {
                marks.bailed();
                Ok(Ok(number_in(&diff).unwrap_or(number)))
            }
            Err(BailFault::NoMark) => Ok(Err("no mark")),
            Err(BailFault::OutOfMemory) => Err(Fail::from("out of memory")),
        },
    }
}

// What is said of a step, and the number after it.
fn do_step(alloc: Global, marks: &mut Marks, step: &str, number: &mut i64) -> Result<String, Fail> {
    match after(alloc, marks, step, *number)? {
        Ok(next) => {
            *number = next;
            Ok(format!(in alloc; "{next}")?)
        }
        Err(nothing) => Ok(String::from_str(alloc, nothing)?),
    }
}

// The first step of a table of which something else is said.
fn first_difference(alloc: Global, table: &str) -> Result<Option<String>, Fail> {
    let mut marks = Marks::new(alloc);
    let mut number = 0;
    for row in &rows(alloc, table)? {
        let [step, wanted, ..] = cells(row);
        let found = do_step(alloc, &mut marks, step, &mut number)?;
        if found.as_str() != wanted {
            return Ok(Some(format!(in alloc; "at {step}: {found}, and not {wanted}")?));
        }
    }
    Ok(None)
}

#[test]
fn goes_back_and_again(rt: HostRuntime) -> Result<(), Fail> {
    if let Some(difference) = first_difference(rt.alloc(), STEPS)? {
        assert_eq!(rt; difference.as_str(), "");
    }
    Ok(())
}
