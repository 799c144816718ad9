//! What plays the rows of a table.
use crate::cast::Worker;
use crate::host::{Outcome, outcome_of};
use std::alloc::Global;
use std::sync::Wait;
use std::test::Fail;
use std::thread::Threads;
use test_with_cases::{cells, rows};
use test_with_served::{sent_text, spell_out};

/// Plays each row of a table. `None` if each comes out as the row says, else the first that
/// doesn't, with what came out.
///
/// # Errors
/// A row that is none, one whose worker is held at the gate for too long, and where memory is
/// refused.
pub fn first_difference<R: Threads + Wait + Sync>(
    rt: &R,
    alloc: Global,
    table: &str,
) -> Result<Option<String>, Fail> {
    for row in &rows(alloc, table)? {
        if let Some(difference) = difference_at(rt, alloc, row)? {
            return Ok(Some(difference));
        }
    }
    Ok(None)
}

// How a row comes out otherwise than it says.
fn difference_at<R: Threads + Wait + Sync>(
    rt: &R,
    alloc: Global,
    row: &str,
) -> Result<Option<String>, Fail> {
    let [happens, sent, status, lines] = cells(row);
    let found = outcome_texts(rt, alloc, happens)?;
    let wanted = [
        spell_out(alloc, sent)?,
        String::from_str(alloc, status)?,
        lines_of(alloc, lines)?,
    ];
    for (found, wanted) in found.iter().zip(wanted.iter()) {
        if found.as_str() != wanted.as_str() {
            return Ok(Some(format!(in alloc; "at {happens}: {found}, and not {wanted}")?));
        }
    }
    Ok(None)
}

// What comes out: what went out on the links, the status, and the lines.
fn outcome_texts<R: Threads + Wait + Sync>(
    rt: &R,
    alloc: Global,
    happens: &str,
) -> Result<[String; 3], Fail> {
    let Outcome {
        served,
        workers,
        written,
    } = outcome_of(rt, alloc, happens)?;
    let mut sent = String::new(alloc);
    for worker in &workers {
        add_worker(alloc, &mut sent, worker)?;
    }
    if sent.is_empty() {
        sent.push_str("none")?;
    }
    let status = format!(in alloc; "{}", served.status)?;
    Ok([sent, status, written])
}

// Adds what went out on the links that a worker was given back.
fn add_worker(alloc: Global, all: &mut String, worker: &Worker) -> Result<(), Fail> {
    let Some(links) = worker.accept.returned_links() else {
        return Err(Fail::from("more links came back than there are"));
    };
    let mut parts = String::new(alloc);
    for link in links {
        let sent = sent_text(alloc, link.link.sent.as_slice())?;
        add_part(&mut parts, " , ", sent.as_str())?;
    }
    if parts.is_empty() {
        parts.push_str("none")?;
    }
    add_part(all, " ; ", parts.as_str())
}

// Adds a part behind what parts it from those before.
fn add_part(parts: &mut String, between: &str, part: &str) -> Result<(), Fail> {
    if !parts.is_empty() {
        parts.push_str(between)?;
    }
    parts.push_str(part)?;
    Ok(())
}

// The lines of words, each with its end.
fn lines_of(alloc: Global, words: &str) -> Result<String, Fail> {
    let mut lines = String::new(alloc);
    if words == "-" {
        return Ok(lines);
    }
    for line in spell_out(alloc, words)?.as_str().split_whitespace() {
        lines.push_str(line)?;
        lines.push('\n')?;
    }
    Ok(lines)
}
