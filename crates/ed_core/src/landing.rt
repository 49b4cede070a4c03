//! What an answer of the stock tells.
ghost use Rattle.std.specs.Prelude.{◌≡◌, Some, None, IfOk, OnErr};
ghost use Rattle.ed_climb.specs.Group.{IsPlanned, outcome};
ghost use Rattle.ed_risen.specs.Laws.{RecordsStay};
ghost use Rattle.ed_group.specs.Seen.{stock as seen};
ghost use Rattle.ed_core.specs.Deciding.{fault_told, group_told};

use ed_base::OutOfMemory;
use ed_entry::Reply;
use ed_group::{Group, PlanFault, Stock};

/// The reply to what the stock refuses.
pub fn unplanned(fault: PlanFault) -> Result<Reply, OutOfMemory>
    ensures reply { IfOk result (λ r. Some r ≡ fault_told fault) }
    ensures err { OnErr result (fault_told fault ≡ None) }
{
    match fault {
        PlanFault::Refused(refusal) => Ok(Reply::Refused(refusal)),
        PlanFault::OutOfMemory => Err(OutOfMemory),
    }
}

/// Makes a group that was planned, and tells its versions.
pub fn land(stock: &mut Stock, planned: Result<Group, PlanFault>) -> Result<Reply, OutOfMemory>
    requires { IfOk planned (IsPlanned stock.old) }
    ensures reply { IfOk result (λ r. Some r ≡ group_told planned) }
    ensures err { OnErr result (group_told planned ≡ None) }
    ensures made { IfOk planned (λ g. seen stock.new ≡ outcome (seen stock.old) g) }
    ensures same { OnErr planned (seen stock.new ≡ seen stock.old) }
    ensures stay { RecordsStay (seen stock.old) (seen stock.new) }
{
    match planned {
        Ok(group) => Ok(Reply::Edited {
            versions: stock.commit(group),
        }),
        Err(fault) => unplanned(fault),
    }
}
