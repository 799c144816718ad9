//! Laws of lines. Each function does nothing: its contract is the law.
ghost use Rattle.rec_format.specs.Laws as laws;

/// Each value is that of one event at most.
pub fn one_event_each()
    ensures { laws.OneEventEach }
{}

/// Each value is that of one header at most.
pub fn one_header_each()
    ensures { laws.OneHeaderEach }
{}

/// What the contract of `read_line` says leaves it no choice: a line that stands for an event is
/// read as it, unless memory is refused.
pub fn reads_the_event()
    ensures { laws.ReadsTheEvent }
{}

/// The same of `read_header`.
pub fn reads_the_header()
    ensures { laws.ReadsTheHeader }
{}
