//! The plans of sessions.
ghost use Rattle.std.specs.Prelude.{◌≡◌, ◌↔◌, [], IsTrue, IfOk};
ghost use Rattle.std.specs.Result.{result_map_both};
ghost use Rattle.rooms_val.specs.View.{data_of};
ghost use Rattle.migrate_seq.specs.Shown.{goes_both_ways, is_of_records};
ghost use Rattle.room_schemas.specs.Decided.{plan_for, raise, lower};
ghost use Rattle.schema_core.specs.SchemaOf.{schema_tree};

use migrate_seq::{Plan, PlanFault, Serialized};
use rooms_val::{Mem, OutOfMemory, Val};
use schema_core::Schema;
use std::alloc::Global;
use sync_msgs::EndReason;

/// The migrations from the schema of a session's client to the room's. Each works on one record at
/// a time and goes both ways.
#[derive(Drop)]
pub struct SessionPlan {
    plan: Plan,
    ghost both_ways: { IsTrue (goes_both_ways plan) },
    ghost of_records: { IsTrue (is_of_records plan) },
}

impl SessionPlan {
    ghost use Rattle.room_accept.specs.Plans.{plan_of};

    /// The plan from a schema that a client tells, or why the client can't connect: `ServerTooOld`
    /// if it has an unknown sequence or a newer version, `ClientTooOld` if a migration works on the
    /// whole store or doesn't go both ways.
    pub fn find(
        alloc: Global,
        schema: &Schema,
        versions: &Serialized,
    ) -> Mem<Result<SessionPlan, EndReason>>
        ensures { IfOk result (λ found. result_map_both plan_of (λ reason. reason) found
            ≡ plan_for (schema_tree schema.now) versions.now) }
    {
        match schema.sequences().since(alloc, versions) {
            Ok(plan) => {
                if plan.both_ways() {
                    return Ok(Ok(SessionPlan { plan }));
                }
                Ok(Err(EndReason::ClientTooOld))
            }
            Err(PlanFault::OutOfMemory) => Err(OutOfMemory),
            Err(PlanFault::TooNew(_)) => Ok(Err(EndReason::ServerTooOld)),
            Err(PlanFault::UnknownSequence(_)) => Ok(Err(EndReason::ServerTooOld)),
        }
    }

    /// Whether the client has the room's schema.
    pub fn is_empty(&self) -> bool
        ensures { IsTrue result ↔ (plan_of self.now ≡ []) }
    {
        self.plan.is_empty()
    }

    /// A record of the client's schema as the room's schema has it.
    pub fn raise(&self, alloc: Global, schema: &Schema, stored: &Val) -> Mem<Val>
        ensures { IfOk result (λ v. data_of v
            ≡ raise (schema_tree schema.now) (plan_of self.now) (data_of stored.now)) }
    {
        schema.sequences().up(alloc, &self.plan, stored)
    }

    /// A record of the room's schema as the client sees it.
    pub fn lower(&self, alloc: Global, schema: &Schema, stored: &Val) -> Mem<Val>
        ensures { IfOk result (λ v. data_of v
            ≡ lower (schema_tree schema.now) (plan_of self.now) (data_of stored.now)) }
    {
        schema.sequences().down(alloc, &self.plan, stored)
    }
}
