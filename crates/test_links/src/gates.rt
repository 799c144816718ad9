//! Gates.
use room_link::gate::{Gate, OpenGate};
use room_link::held_gate::{HeldGate, Hold, Step};
use std::process::Abort;
use std::sync::atomic::{AtomicBool, Ordering};
use std::test::Fail;
use std::thread::join;

#[test]
fn a_held_step_waits_for_the_other(rt: HostRuntime) -> Result<(), Fail> {
    let held = Step { worker: 0, text: 2 };
    let until = Step { worker: 1, text: 1 };
    let gate = HeldGate::new(vec![in rt.alloc(); Hold::new(held, until)]?, 1_000_000_000);
    let is_answered = AtomicBool::new(false);
    let (saw, _) = join(
        &rt,
        || {
            gate.enter(0, 1);
            gate.enter(1, 2);
            gate.enter(0, 2);
            is_answered.load(Ordering::SeqCst)
        },
        || {
            gate.answered(1, 0);
            is_answered.store(true, Ordering::SeqCst);
            gate.answered(1, 1);
        },
    );
    assert!(&rt; saw);
    assert!(&rt; !gate.gave_up());
    Ok(())
}

#[test]
fn a_held_step_gives_up(rt: HostRuntime) -> Result<(), Fail> {
    let step = Step { worker: 0, text: 1 };
    let gate = HeldGate::new(vec![in rt.alloc(); Hold::new(step, step)]?, 3);
    OpenGate.enter(0, 1);
    OpenGate.answered(0, 1);
    gate.enter(0, 2);
    assert!(&rt; !gate.gave_up());
    gate.enter(0, 1);
    assert!(&rt; gate.gave_up());
    Ok(())
}
