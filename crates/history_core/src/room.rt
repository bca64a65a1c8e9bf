// Room for an entry and its changes, taken before either is made.
ghost use Rattle.std.specs.Prelude.{◌≡◌, ◌<◌, OnOk, vec_capacity, vec_len};
ghost use Rattle.plan_core.specs.PlanState.{HasRoom, IsInstallable};

use apron_base::Memory;
use desk_asks::Entry;
use plan_core::{Change, Plan};

/// Takes the memory for one more entry, and for its change of the plan. `Err` if there is none.
pub(crate) fn make_room(
    plan: &mut Plan,
    history: &mut Vec<Entry>,
    change: &Change,
) -> Result<(), Memory>
    requires installable { IsInstallable plan.old.plan change.now }
    ensures plan { plan.new.plan ≡ plan.old.plan }
    ensures entries { history.new.items ≡ history.old.items }
    ensures room { OnOk result (HasRoom plan.new change.now) }
    ensures place { OnOk result (vec_len history.new < vec_capacity history.new) }
{
    plan.reserve(change)?;
    history.reserve(1)?;
    Ok(())
}
