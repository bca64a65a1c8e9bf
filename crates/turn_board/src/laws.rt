// A law of the histories that a seat sees.
ghost use Rattle.std.specs.Prelude.{◌++◌, List};
ghost use Rattle.turn_board.specs.Rule.{Extends};
ghost use Rattle.turn_board.specs.declared.view.Call.{Call};

use apron_base::Machine;

/// What a seat sees later goes on from all that it had seen before. What it had not seen at a call
/// of its own stays later than that call.
#[tactic(auto, using(crate::proofs::Later::extends_on))]
pub fn later_histories_go_on_from_earlier_ones<M: Machine>()
    ensures on { (early middle late : List M.Entry) (calls more : List (Call M.Entry))
        → Extends M.number middle early calls
        → Extends M.number late middle (calls ++ more)
        → Extends M.number late early calls }
{}
