//! Closing rooms, with those that reports hand in.
ghost use Rattle.std.specs.Prelude.{◌≡◌, ◌≤◌, [], ◌∷◌, All, IfOk, OnOk, map, reverse, vec_len, vec_capacity};
ghost use Rattle.std.specs.List.{AllZip};
ghost use Rattle.room_server.specs.Closing.{reports_of, without_gone, AddsGone, AreEnded, AreGathered, AreOf};
ghost use Rattle.room_server.specs.Closing.{IsBelow, IsEnd, IsEmptied};

use room_run::{Closed, Gone, RunningRoom};
use room_serve::{Report, Tally};
use rooms_val::Mem;
use std::alloc::Global;
use std::sync::Wait;

// Tallies whose reports have handed in who is gone, and those of each room, in order.
pub(crate) struct Gathered {
    pub(crate) tallies: Vec<Tally>,
    pub(crate) gones: Vec<Vec<Gone>>,
}

// Takes who is gone out of the reports: those of each of so many rooms.
pub(crate) fn gather(alloc: Global, rooms: usize, tallies: Vec<Tally>) -> Mem<Gathered>
    requires below { All (IsBelow rooms) (reports_of tallies.items) }
    ensures count { IfOk result (λ gathered. vec_len gathered.gones ≡ rooms) }
    ensures gones { IfOk result (λ gathered.
        AreGathered (reports_of tallies.items) gathered.gones.items) }
    ensures tallies { IfOk result (λ gathered.
        AllZip IsEmptied tallies.items gathered.tallies.items) }
{
    let mut gones = nobody(alloc, rooms)?;
    let mut emptied = Vec::with_capacity(alloc, tallies.len())?;
    'tallies: for tally in tallies {
        emptied.push_reserved(gather_tally(&mut gones, tally)?);
    }
    Ok(Gathered {
        tallies: emptied,
        gones,
    })
}

// Takes who is gone out of a tally, and adds those of each room to its list.
fn gather_tally(gones: &mut Vec<Vec<Gone>>, mut tally: Tally) -> Mem<Tally>
    requires below { All (IsBelow (vec_len gones.old)) tally.reports.items }
    ensures count { vec_len gones.new ≡ vec_len gones.old }
    ensures added { OnOk result (AddsGone tally.reports.items gones.old.items gones.new.items) }
    ensures emptied { IfOk result (IsEmptied tally) }
{
    gather_reports(gones, &mut tally.reports)?;
    Ok(tally)
}

// Nobody, for each of so many rooms.
fn nobody(alloc: Global, rooms: usize) -> Mem<Vec<Vec<Gone>>>
    ensures count { IfOk result (λ gones. vec_len gones ≡ rooms) }
    ensures none { IfOk result (λ gones. All (λ those. those.items ≡ []) gones.items) }
{
    let mut gones = Vec::with_capacity(alloc, rooms)?;
    'rooms: for _ in 0..rooms {
        gones.push_reserved(Vec::new(alloc));
    }
    Ok(gones)
}

// Takes who is gone out of some reports, and adds those of each room to its list.
fn gather_reports(gones: &mut Vec<Vec<Gone>>, reports: &mut [Report]) -> Mem<()>
    requires below { All (IsBelow (vec_len gones.old)) reports.old }
    ensures count { vec_len gones.new ≡ vec_len gones.old }
    ensures added { OnOk result (AddsGone reports.old gones.old.items gones.new.items) }
    ensures reports { OnOk result (reports.new ≡ map without_gone reports.old) }
{
    'reports: for report in reports.iter_mut() {
        gather_one(gones, report)?;
    }
    Ok(())
}

// Takes who is gone out of a report, and adds that to the list of its room.
fn gather_one(gones: &mut Vec<Vec<Gone>>, report: &mut Report) -> Mem<()>
    requires below { IsBelow (vec_len gones.old) report.old }
    ensures count { vec_len gones.new ≡ vec_len gones.old }
    ensures added { OnOk result (AddsGone (report.old ∷ []) gones.old.items gones.new.items) }
    ensures report { OnOk result (report.new ≡ without_gone report.old) }
{
    match (report.room, report.gone.take()) {
        (Some(room), Some(gone)) => Ok(gones[room as usize].push(gone)?),
        _ => Ok(()),
    }
}

// Closes each room with those that are gone of it.
pub(crate) fn close_rooms<R: Wait>(
    rt: &R,
    alloc: Global,
    rooms: Vec<RunningRoom>,
    mut gones: Vec<Vec<Gone>>,
) -> Mem<Vec<Closed>>
    requires own { AllZip AreOf rooms.items gones.items }
    ensures { IfOk result (λ closed. AreEnded rooms.items gones.items closed.items) }
{
    let closed = Vec::with_capacity(alloc, rooms.len())?;
    gones.reverse();
    Ok(close_each(rt, rooms, gones, closed))
}

// Closes each room with those that are gone of it; the last ones are those of the first room.
fn close_each<R: Wait>(
    rt: &R,
    rooms: Vec<RunningRoom>,
    mut gones: Vec<Vec<Gone>>,
    mut closed: Vec<Closed>,
) -> Vec<Closed>
    requires own { AllZip AreOf rooms.items (reverse gones.items) }
    requires new { closed.items ≡ [] }
    requires place { vec_len rooms ≤ vec_capacity closed }
    ensures { AreEnded rooms.items (reverse gones.items) result.items }
{
    'rooms: for room in rooms {
        closed.push_reserved(close(rt, room, gones.take_last()));
    }
    closed
}

// Closes a room with those that are gone of it.
fn close<R: Wait>(rt: &R, room: RunningRoom, gones: Vec<Gone>) -> Closed
    requires own { AreOf room gones }
    ensures { IsEnd room gones.items result }
{
    room.close(rt, gones)
}
