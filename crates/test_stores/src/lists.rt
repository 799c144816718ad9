//! What lists by index hold after each call.
ghost use Rattle.std.specs.Prelude.{◌≡◌, ◌<◌, length, OnOk};
ghost use Rattle.links_core.specs.Lists.{IsLinked};

use links_core::{Links, ListId};
use rooms_val::Mem;
use std::alloc::Global;
use std::process::Abort;
use std::test::Fail;

// The nodes of a list from the first on, at most so many; `None` where the way back isn't the same.
fn nodes_of(
    alloc: Global,
    links: &Links,
    list: ListId,
    most: usize,
) -> Result<Option<Vec<usize>>, Fail>
    requires { list.number < length links.now.lists }
{
    let mut nodes = Vec::new(alloc);
    let mut at = links.first(list);
    let mut before = None;
    for _ in 0..most {
        let Some(node) = at else {
            break;
        };
        if links.prev(node) != before {
            return Ok(None);
        }
        nodes.push(node)?;
        before = at;
        at = links.next(node);
    }
    if at.is_some() || links.last(list) != before {
        return Ok(None);
    }
    Ok(Some(nodes))
}

// Takes a node out of its list and puts it at the end of one.
fn hang(links: &mut Links, node: usize, list: ListId)
    requires linked { IsLinked links.old.lists node }
    requires made { node < links.old.count }
    requires list { list.number < length links.old.lists }
    ensures { length links.new.lists ≡ length links.old.lists }
{
    links.unlink(node);
    links.push_back(list, node);
}

// Hangs the first node of a list, where there is one, at the end of another.
fn hang_first(links: &mut Links, from: ListId, to: ListId)
    requires from { from.number < length links.old.lists }
    requires to { to.number < length links.old.lists }
    ensures { length links.new.lists ≡ length links.old.lists }
{
    if let Some(node) = links.first(from) {
        hang(links, node, to);
    }
}

// Hangs the last node of a list, where there is one, at the end of another.
fn hang_last(links: &mut Links, from: ListId, to: ListId)
    requires from { from.number < length links.old.lists }
    requires to { to.number < length links.old.lists }
    ensures { length links.new.lists ≡ length links.old.lists }
{
    if let Some(node) = links.last(from) {
        hang(links, node, to);
    }
}

// Moves the first node of a list, where there is one, to its end.
fn turn(links: &mut Links, list: ListId)
    requires { list.number < length links.old.lists }
    ensures { length links.new.lists ≡ length links.old.lists }
{
    if let Some(node) = links.first(list) {
        links.move_back(node);
    }
}

// Step n of a row of steps on two lists: mostly the first of the left one goes to the right one, or to its own end.
fn step(links: &mut Links, left: ListId, right: ListId, n: u32)
    requires left { left.number < length links.old.lists }
    requires right { right.number < length links.old.lists }
    ensures { length links.new.lists ≡ length links.old.lists }
{
    if n % 7 == 6 {
        hang_last(links, right, left);
    } else if n % 5 < 2 {
        hang_first(links, left, right);
    } else if n % 3 == 0 {
        hang_first(links, right, left);
    } else {
        turn(links, left);
    }
}

// The first of a plain list, which goes.
fn take_first(from: &mut Vec<usize>) -> Option<usize> {
    if from.is_empty() {
        return None;
    }
    Some(from.remove(0))
}

// The node that step n takes on plain lists.
fn take(left: &mut Vec<usize>, right: &mut Vec<usize>, n: u32) -> Option<usize> {
    if n % 7 == 6 {
        return right.pop();
    }
    if n % 5 < 2 {
        return take_first(left);
    }
    if n % 3 == 0 {
        return take_first(right);
    }
    take_first(left)
}

// Step n on plain lists.
fn plain_step(left: &mut Vec<usize>, right: &mut Vec<usize>, n: u32) -> Mem<()> {
    let Some(node) = take(left, right, n) else {
        return Ok(());
    };
    if n % 7 != 6 && n % 5 < 2 {
        right.push(node)?;
    } else {
        left.push(node)?;
    }
    Ok(())
}

// Makes so many nodes at the end of a list.
fn fill(links: &mut Links, list: ListId, count: usize) -> Result<(), Fail>
    requires { list.number < length links.old.lists }
    ensures { OnOk result (length links.new.lists ≡ length links.old.lists) }
{
    'made: for _ in 0..count {
        let node = links.node()?;
        links.push_back(list, node);
    }
    Ok(())
}

// The first so many numbers.
fn numbers(alloc: Global, count: usize) -> Mem<Vec<usize>> {
    let mut numbers = Vec::new(alloc);
    for number in 0..count {
        numbers.push(number)?;
    }
    Ok(numbers)
}

// Asserts that a list has what a plain one has.
fn has(
    rt: &impl Abort,
    alloc: Global,
    links: &Links,
    list: ListId,
    plain: &[usize],
) -> Result<(), Fail>
    requires { list.number < length links.now.lists }
{
    let nodes = nodes_of(alloc, links, list, 8)?.ok_or("the list is threaded one way")?;
    assert_eq!(rt; nodes.as_slice(), plain);
    Ok(())
}

#[test]
fn a_node_moves_to_the_back(rt: HostRuntime) -> Result<(), Fail> {
    let mut links = Links::new(rt.alloc());
    links.reserve(2)?;
    let list = links.list()?;
    fill(&mut links, list, 2)?;
    has(&rt, rt.alloc(), &links, list, &[0, 1])?;
    turn(&mut links, list);
    has(&rt, rt.alloc(), &links, list, &[1, 0])
}

#[test]
fn two_hundred_steps_leave_what_plain_lists_have(rt: HostRuntime) -> Result<(), Fail> {
    let alloc = rt.alloc();
    let mut links = Links::new(alloc);
    let left = links.list()?;
    let right = links.list()?;
    fill(&mut links, left, 7)?;
    let mut plain_left = numbers(alloc, 7)?;
    let mut plain_right = Vec::new(alloc);
    has(&rt, alloc, &links, left, &plain_left)?;
    'steps: for n in 0..200u32 {
        step(&mut links, left, right, n);
        plain_step(&mut plain_left, &mut plain_right, n)?;
        has(&rt, alloc, &links, left, &plain_left)?;
        has(&rt, alloc, &links, right, &plain_right)?;
    }
    Ok(())
}
