//! One link, served.
use room_link::link::Link;
use room_link::passing::{Incoming, Stop};
use std::alloc::Global;
use std::str;
use sync_msgs::EndReason;

/// The longest text that is sent back.
const LONGEST_TEXT: usize = 4_194_304;

/// How many texts answer a `flood`, and of how many bytes each is.
const FLOOD: u32 = 30;

const FLOOD_TEXT: usize = 1_048_576;

/// How a link ended.
#[derive(Clone, Copy, Debug, PartialEq, Eq)]
pub(crate) enum End {
    /// The peer ended it.
    Ended,
    /// It was closed.
    Closed,
    /// It had a fault.
    Failed,
    /// Memory was refused.
    OutOfMemory,
}

impl End {
    /// The word that is printed.
    pub(crate) fn word(self) -> &'static str {
        match self {
            End::Ended => "ended",
            End::Closed => "closed",
            End::Failed => "fault",
            End::OutOfMemory => "memory",
        }
    }
}

/// What came of a link.
#[derive(Clone, Copy, Debug, PartialEq, Eq)]
pub(crate) struct Report {
    pub(crate) end: End,
    pub(crate) texts: u64,
    pub(crate) idles: u64,
}

/// How a stop ends a link.
fn end_of(stop: Stop) -> End {
    match stop {
        Stop::Failed => End::Failed,
        Stop::OutOfMemory => End::OutOfMemory,
    }
}

/// Answers a text, or says how the link ended by it.
fn answer<K: Link>(alloc: Global, link: &mut K, bytes: &[u8]) -> Result<(), End> {
    let Ok(text) = str::from_utf8(bytes) else {
        return close_link(link);
    };
    if text == "leave" || bytes.len() > LONGEST_TEXT {
        return close_link(link);
    }
    if text == "flood" {
        return flood(alloc, link);
    }
    send_text(link, text)
}

/// Closes a link.
fn close_link<K: Link>(link: &mut K) -> Result<(), End> {
    match link.close(EndReason::InvalidRecord) {
        Ok(()) => Err(End::Closed),
        Err(stop) => Err(end_of(stop)),
    }
}

/// Sends a text.
fn send_text<K: Link>(link: &mut K, text: &str) -> Result<(), End> {
    match link.send(text) {
        Ok(()) => Ok(()),
        Err(stop) => Err(end_of(stop)),
    }
}

/// Sends many long texts.
fn flood<K: Link>(alloc: Global, link: &mut K) -> Result<(), End> {
    let mut text = String::new(alloc);
    for _ in 0..FLOOD_TEXT {
        if text.push('m').is_err() {
            return Err(End::OutOfMemory);
        }
    }
    for _ in 0..FLOOD {
        send_text(link, text.as_str())?;
    }
    Ok(())
}

/// Serves a link up to its end.
pub(crate) fn serve_link<K: Link>(alloc: Global, link: &mut K) -> Report {
    let mut report = Report {
        end: End::Ended,
        texts: 0,
        idles: 0,
    };
    for _ in 0..u64::MAX {
        match link.next() {
            Ok(Incoming::Text(bytes)) => {
                report.texts = report.texts.saturating_add(1);
                if let Err(end) = answer(alloc, link, &bytes) {
                    report.end = end;
                    return report;
                }
            }
            Ok(Incoming::Idle) => report.idles = report.idles.saturating_add(1),
            Ok(Incoming::End) => return report,
            Err(stop) => {
                report.end = end_of(stop);
                return report;
            }
        }
    }
    report
}
