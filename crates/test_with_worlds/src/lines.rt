//! The lines of a recording that a step stands for.
use std::alloc::Global;
use std::test::Fail;
use test_with_boards::board_text;

// The lines of a step, one on each line of the text.
pub(crate) fn lines_of(alloc: Global, step: &str) -> Result<String, Fail> {
    let text = short_lines(alloc, step)?;
    board_text(alloc, text.as_str())
}

// The lines of a step, with short names of records.
fn short_lines(alloc: Global, step: &str) -> Result<String, Fail> {
    let (word, rest) = cut(step);
    match word {
        "client" => Ok(format!(in alloc; r#"{{"do":"client","version":{rest}}}"#)?),
        "open" => open(alloc, rest),
        "sync" => sync(alloc, rest),
        "get" => get(alloc, rest),
        "edit" => edit(alloc, rest),
        "bulk" => bulk(alloc, rest),
        "watch" => watch(alloc, rest),
        "query" => query(alloc, rest),
        "times" => times(alloc, rest),
        _ => Ok(String::from_str(alloc, step)?),
    }
}

// The first word of a text, and what comes after it.
fn cut(text: &str) -> (&str, &str) {
    text.split_once(' ').unwrap_or((text, ""))
}

// A client connects by a session, until it is answered.
fn open(alloc: Global, rest: &str) -> Result<String, Fail> {
    let (client, _) = cut(rest);
    let answered = sync(alloc, rest)?;
    Ok(format!(in alloc;
        "{{\"client\":{client},\"do\":\"connect\",\"readonly\":false}}\n{}",
        answered.as_str()
    )?)
}

// The first message of a session is handled, and what is next is delivered to its client.
fn sync(alloc: Global, rest: &str) -> Result<String, Fail> {
    let (_, session) = cut(rest);
    let got = get(alloc, rest)?;
    Ok(format!(in alloc;
        "{{\"do\":\"handle\",\"session\":{session}}}\n{}",
        got.as_str()
    )?)
}

// What is next for a session is delivered to its client.
fn get(alloc: Global, rest: &str) -> Result<String, Fail> {
    let (client, session) = cut(rest);
    Ok(format!(in alloc;
        "{{\"do\":\"send\",\"session\":{session}}}\n{{\"client\":{client},\"do\":\"deliver\"}}"
    )?)
}

// A client makes an edit.
fn edit(alloc: Global, rest: &str) -> Result<String, Fail> {
    let (client, diff) = cut(rest);
    Ok(format!(in alloc; r#"{{"client":{client},"diff":{diff},"do":"edit"}}"#)?)
}

// A client makes an edit of many parts, which are numbered from a number on.
fn bulk(alloc: Global, rest: &str) -> Result<String, Fail> {
    let (client, rest) = cut(rest);
    let (first, rest) = cut(rest);
    let (count, rest) = cut(rest);
    let (front, part) = cut(rest);
    let first = first.parse::<u64>()?;
    let mut out = format!(in alloc; r#"{{"client":{client},"diff":{front}"#)?;
    for place in 0..count.parse::<u64>()? {
        if 0 < place {
            out.push_str(",")?;
        }
        let number = format!(in alloc; "{}", first.saturating_add(place))?;
        out.push_str(part.replace(alloc, "@", number.as_str())?.as_str())?;
    }
    out.push_str(r#"},"do":"edit"}"#)?;
    Ok(out)
}

// A client watches a view.
fn watch(alloc: Global, rest: &str) -> Result<String, Fail> {
    let (client, view) = cut(rest);
    Ok(format!(in alloc; r#"{{"client":{client},"do":"watch","view":{view}}}"#)?)
}

// A client asks for the records of a type that meet a query.
fn query(alloc: Global, rest: &str) -> Result<String, Fail> {
    let (client, asked) = cut(rest);
    let (type_name, query) = cut(asked);
    Ok(format!(in alloc;
        r#"{{"client":{client},"do":"query","type":"{type_name}","where":{query}}}"#
    )?)
}

// The same line so many times.
fn times(alloc: Global, rest: &str) -> Result<String, Fail> {
    let (count, line) = cut(rest);
    let mut out = String::new(alloc);
    for _ in 0..count.parse::<u64>()? {
        out.push_str(line)?;
        out.push_str("\n")?;
    }
    Ok(out)
}
