//! Laws of messages. Each function does nothing: its contract is the law.
ghost use Rattle.wire_msgs.specs.Laws as laws;

/// Each value is that of one message of a client at most.
pub fn one_client_each()
    ensures { laws.OneClientEach }
{}

/// Each value is that of one message of a room at most.
pub fn one_server_each()
    ensures { laws.OneServerEach }
{}

/// What the contract of `read_client` says leaves it no choice: a text that stands for a message is
/// read as it, unless memory is refused.
pub fn reads_the_client()
    ensures { laws.ReadsTheClient }
{}

/// The same of `read_server`.
pub fn reads_the_server()
    ensures { laws.ReadsTheServer }
{}
