//! What a room makes of a push.
ghost use Rattle.std.specs.Prelude.{◌≡◌, IfOk};
ghost use Rattle.room_model.specs.Accepting.{pushed_diff, action_of};
ghost use Rattle.room_accept.specs.Plans.{plan_of};

use crate::plan::SessionPlan;
use field_ops::Diff;
use rooms_val::Mem;
use std::alloc::Global;
use sync_msgs::Action;

// The action of a push, by its diff and the part that was accepted.
pub(crate) fn action_of(
    alloc: Global,
    plan: &SessionPlan,
    pushed: &Option<Diff>,
    part: &Diff,
) -> Mem<Action>
    ensures { IfOk result (λ action. action
        ≡ action_of (plan_of plan.now) (pushed_diff pushed.now) part.now) }
{
    let Some(diff) = pushed else {
        return Ok(Action::Commit);
    };
    if diff.is_empty() {
        return Ok(Action::Commit);
    }
    if part.is_empty() {
        return Ok(Action::Discard);
    }
    if plan.is_empty() && part.len() == diff.len() {
        return Ok(Action::Commit);
    }
    Ok(Action::Rebase(part.copy(alloc)?))
}
