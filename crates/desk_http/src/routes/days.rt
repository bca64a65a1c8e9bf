// What GET /plan/DAY, GET /chart/DAY and GET /day/DAY ask.
ghost use Rattle.std.specs.Prelude.{◌≡◌, ◌≤◌, OnOk};
ghost use Rattle.desk_http.specs.DaysRoute.{day_asked as day_asked_lem, is_day as is_day_lem};

use apron_rules::Airport;
use desk_asks::What;
use desk_words::early::EarlyReply;

/// What is asked of a day, counted from 1, if the plan has it.
pub(crate) fn day_asked(airport: &Airport, day: u32, asked: What) -> Result<What, EarlyReply>
    ensures is { result ≡ day_asked_lem airport.now day asked }
    ensures first { OnOk result (1 ≤ day) }
    ensures last { OnOk result (day ≤ airport.now.days) }
{
    if !is_plan_day(airport, day) {
        return Err(EarlyReply::NoDay);
    }
    Ok(asked)
}

fn is_plan_day(airport: &Airport, day: u32) -> bool
    ensures is { result ≡ is_day_lem airport.now day }
{
    1 <= day && day <= airport.parts().days
}
