//! What is wrong with a message, before anything is changed.
ghost use Rattle.std.specs.Prelude.{◌≡◌, ◌+◌, ◌<◌, ◌≤◌, ◌^◌, ℕ, List, length, sum_by, IfOk};
ghost use Rattle.room_model.specs.Replicas.{Work};
ghost use Rattle.client_replica.specs.Works.{ended_by};
ghost use Rattle.std.specs.Result.{result_err};
ghost use Rattle.sync_client.specs.Numbers.{numbered, expected};
ghost use Rattle.sync_client.specs.Faults as faults;

use crate::fault::TakeFault;
use itoa::Buffer;
use room_model::connection::Connection;
use sync_msgs::DataEvent;

/// That an answer is to the request that was made.
pub(crate) fn check_answer(connection: Connection, request: &str) -> Result<(), TakeFault>
    ensures { result_err result ≡ faults.answer_fault connection request.now }
{
    match connection {
        Connection::Off => Err(TakeFault::NotOpen),
        Connection::Asking(asked) => {
            let mut digits = Buffer::new();
            if request == digits.format(asked) {
                Ok(())
            } else {
                Err(TakeFault::WrongRequest)
            }
        }
        Connection::Open(_) => Err(TakeFault::NotOpen),
    }
}

/// What events do to a client that takes them.
#[derive(Drop)]
pub(crate) struct Checked {
    /// How many pending works they end.
    pub(crate) ended: usize,
    /// The clock that is reached after them.
    pub(crate) clock: i64,
}

/// How many pending works events end and which clock they lead to, or what is wrong with the first event at fault. So many
/// of the pending works were sent, from a first number on.
pub(crate) fn check_events(
    events: &[DataEvent],
    first: u64,
    sent: usize,
    reached: i64,
) -> Result<Checked, TakeFault>
    requires { first + sent < 2 ^ 63 }
    ensures fault { (works : List Work) → sent ≤ length works
        → result_err result ≡ faults.events_fault (numbered first sent works) reached events.now }
    ensures ended { IfOk result (λ checked. checked.ended ≡ sum_by ended_by events.now) }
    ensures within { IfOk result (λ checked. checked.ended ≤ sent) }
    ensures clock { IfOk result (λ checked. checked.clock ≡ faults.clock_after reached events.now) }
{
    let mut checked = Checked {
        ended: 0,
        clock: reached,
    };
    'events: for event in events {
        match check_event(event, first, sent, &checked) {
            Ok(next) => checked = next,
            Err(fault) => return Err(fault),
        }
    }
    Ok(checked)
}

// The same for one event, after others.
fn check_event(
    event: &DataEvent,
    first: u64,
    sent: usize,
    before: &Checked,
) -> Result<Checked, TakeFault>
    requires all { first + sent < 2 ^ 63 }
    requires within { before.now.ended ≤ sent }
    ensures fault { result_err result
        ≡ faults.event_fault (expected first sent before.now.ended) before.now.clock event.now }
    ensures ended { IfOk result (λ checked. checked.ended ≡ before.now.ended + ended_by event.now) }
    ensures within { IfOk result (λ checked. checked.ended ≤ sent) }
    ensures clock { IfOk result (λ checked. checked.clock ≡ faults.clock_of event.now) }
{
    match event {
        DataEvent::Patch { server_clock, .. } => {
            check_clock(before.clock, *server_clock)?;
            Ok(Checked {
                ended: before.ended,
                clock: *server_clock,
            })
        }
        DataEvent::PushResult {
            client_clock,
            server_clock,
            ..
        } => {
            if before.ended == sent {
                return Err(TakeFault::NoPending(*client_clock));
            }
            check_number(first + before.ended as u64, *client_clock)?;
            check_clock(before.clock, *server_clock)?;
            Ok(Checked {
                ended: before.ended + 1,
                clock: *server_clock,
            })
        }
    }
}

// That a clock doesn't lie below the reached one.
fn check_clock(reached: i64, clock: i64) -> Result<(), TakeFault>
    ensures { result_err result ≡ faults.clock_fault reached clock }
{
    if clock < reached {
        Err(TakeFault::ClockBack(reached, clock))
    } else {
        Ok(())
    }
}

// That a result is that of the push that is expected.
fn check_number(due: u64, number: i64) -> Result<(), TakeFault>
    requires { due < 2 ^ 63 }
    ensures { result_err result ≡ faults.number_fault number due }
{
    if number == due as i64 {
        Ok(())
    } else {
        Err(TakeFault::WrongPending(due as i64, number))
    }
}
