//! The program `test_with_refusals`: it serves links in memory, so that `checks/refusals` can have each allocation of that refused. Two
//! lines come in: how many allocations are made before, and what there is, as the first cell of a row of `test_with_servers` has it.
//!
//! It prints the status once the links are served, and then a line for each link, as `test_with_servers` tells them. If memory is refused
//! before the links are served, it prints nothing; if that happens while what came of them is told, the status alone. In both cases
//! it ends with status 1.
#![tactic(auto)]

use std::io;
use std::test::Fail;
use test_with_servers::serve_after;

fn main(rt: HostRuntime) -> Result<(), Fail> {
    let alloc = rt.alloc();
    let input = io::read_to_string(alloc, rt.stdin())?;
    let (count, happens) = input.as_str().split_once('\n').unwrap_or(("", ""));
    let ended = serve_after(&rt, alloc, happens.trim_end(), count.parse::<u64>()?)?;
    println!(&rt; "status {}", ended.status())?;
    let lines = ended.lines(alloc)?;
    print!(&rt; "{lines}")?;
    Ok(())
}
