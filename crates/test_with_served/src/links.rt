//! What comes on a link, and what another session says.
ghost use Rattle.std.specs.Prelude.{◌≡◌, IfOk};

use crate::texts::{bytes_of, text_of};
use room_link::memory_link::{MemoryLink, SteadyLink};
use room_link::passing::Arrival;
use room_link::script::Script;
use std::alloc::Global;
use std::collections::VecDeque;
use std::test::Fail;
use sync_msgs::ClientMessage;
use wire_msgs::read_client;

/// A link on which words come, as the first cell of a row has them.
///
/// # Errors
/// A word that is none, and where memory is refused.
pub fn link_of(alloc: Global, words: &str) -> Result<MemoryLink, Fail>
    ensures { IfOk result (λ link. link.script.faults ≡ 0) }
{
    let mut arrivals = VecDeque::new(alloc);
    let mut failing = Vec::new(alloc);
    for word in words.split_whitespace() {
        if let Some(call) = word.strip_prefix("fails=") {
            failing.push(call.parse::<u64>()?)?;
        } else if let Some(arrival) = arrival_of(alloc, word)? {
            arrivals.push_back(arrival)?;
        }
    }
    Ok(MemoryLink {
        link: SteadyLink::new(alloc, arrivals),
        script: Script::new(failing),
    })
}

// What a word is that comes, if it is something.
fn arrival_of(alloc: Global, word: &str) -> Result<Option<Arrival>, Fail> {
    match word {
        "-" => Ok(None),
        "." => Ok(Some(Arrival::Idle)),
        _ => Ok(Some(Arrival::Text(bytes_of(alloc, word)?))),
    }
}

// The messages of words.
pub(crate) fn messages_of(alloc: Global, words: &str) -> Result<Vec<ClientMessage>, Fail> {
    let mut messages = Vec::new(alloc);
    for word in words.split_whitespace() {
        let (count, word) = word.split_once('*').unwrap_or(("1", word));
        let text = text_of(alloc, word)?;
        for _ in 0..count.parse::<u64>()? {
            messages.push(read_client(alloc, text.as_str().as_bytes())?)?;
        }
    }
    Ok(messages)
}
