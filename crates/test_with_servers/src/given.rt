//! What rooms gave their sessions, against what went out.
use room_events::RoomEvent;
use room_link::passing::Outgoing;
use room_run::Closed;
use room_serve::Report;
use std::alloc::Global;
use std::test::Fail;
use sync_msgs::Out;
use wire_msgs::Message;

/// The room that a link named.
pub(crate) fn room_of<'a>(report: &Report, closed: &'a [Closed]) -> Option<&'a Closed> {
    match report.room {
        Some(room) => closed.get(usize::try_from(room).unwrap_or(usize::MAX)),
        None => None,
    }
}

/// The texts that a session was given.
pub(crate) fn given_to(
    alloc: Global,
    events: &[RoomEvent],
    session: u64,
) -> Result<Vec<String>, Fail> {
    let mut given = Vec::new(alloc);
    for event in events {
        match event {
            RoomEvent::Drain(number, Some(Out::Message(message))) => if *number == session {
                given.push(String::from_utf8(message.print(alloc)?)?)?;
            },
            _ => {}
        }
    }
    Ok(given)
}

/// Whether what went out is these texts, or a beginning of them.
pub(crate) fn is_front(sent: &[Outgoing], texts: &[String]) -> bool {
    sent.len() <= texts.len()
        && sent.iter().zip(texts.iter()).all(|(one, text)| match one {
            Outgoing::Text(one) => one.as_str() == text.as_str(),
            Outgoing::Close(_) => false,
        })
}
