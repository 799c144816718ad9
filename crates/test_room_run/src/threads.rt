//! Sessions of several threads, whatever the schedule.
use std::process::Abort;
use std::test::Fail;
use test_with_room_runs::crowd_difference;

#[test]
fn eight_threads_write_what_one_thread_can(rt: HostRuntime) -> Result<(), Fail> {
    if let Some(difference) = crowd_difference(&rt, rt.alloc(), 8, 200)? {
        assert_eq!(&rt; difference.as_str(), "");
    }
    Ok(())
}
