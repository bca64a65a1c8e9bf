// A day with a given number of visits, and its summary.
ghost use Rattle.std.specs.Prelude.{◌≡◌, ◌≤◌, ◌<◌, ◌%◌, ◌+◌, IfOk, OnOk, count_by};
ghost use Rattle.generated_day.specs.Days.{IsPlaced, IsVisitMade, MakesDay, is_placed, is_unplaced, most_made, parts_of, summary_of};
ghost use Rattle.generated_day.specs.DayAirport.{day_airport};
ghost use Rattle.generated_day.specs.Makings.{day_so_far};

use crate::Summary;
use crate::airport::{STANDS, day_airport};
use crate::counts::more;
use crate::draws::{draw_below, next_seed};
use crate::making::Making;
use apron_base::Memory;
use std::alloc::Global;
use visit_book::{Part, Place, Visit};

/// The most visits of a generated day.
pub const MAX_MADE: u32 = 5_000;

// How many stands are tried for a visit.
const TRIES: u32 = 8;

/// The summary of a generated day of this many visits, 1 to 5,000. At `Err` memory has run out.
pub fn make_day(alloc: Global, visits: u32) -> Result<Summary, Memory>
    requires some { 1 ≤ visits }
    requires few { visits ≤ most_made }
    ensures made { IfOk result (MakesDay visits) }
{
    let airport = day_airport(alloc)?;
    let mut making = Making::new(alloc, &airport)?;
    for made in 0..visits {
        make_visit(alloc, &mut making, made + 1)?;
    }
    summary(&making)
}

// Makes everything that comes with the visit of this number.
fn make_visit(alloc: Global, making: &mut Making, number: u32) -> Result<(), Memory>
    requires few { number ≤ most_made }
    ensures made { OnOk result
        (IsVisitMade number (day_so_far making.old) (day_so_far making.new)) }
{
    making.add(alloc, number)?;
    place_visit(alloc, making, number)?;
    if number % 4 == 0 {
        making.delay(alloc, number / 2)?;
    }
    Ok(())
}

// Draws a stand, and tries it and those after it.
fn place_visit(alloc: Global, making: &mut Making, number: u32) -> Result<(), Memory>
    ensures placed { OnOk result (IsPlaced number (day_so_far making.old) (day_so_far making.new)) }
{
    making.seed = next_seed(making.seed);
    let first = draw_below(STANDS, making.seed);
    for t in 0..TRIES {
        if making.put(alloc, number, (first + t) % STANDS)? {
            return Ok(());
        }
        making.refused = more(making.refused, 1)?;
    }
    Ok(())
}

fn summary(making: &Making) -> Result<Summary, Memory>
    ensures is { IfOk result (λ summary. summary ≡ summary_of (day_so_far making.now)) }
{
    let plan = making.board.plan();
    let visits = plan.visits();
    let (placed, unplaced) = count_parts(visits)?;
    Ok(Summary {
        visits: more(0, visits.len())?,
        placed,
        unplaced,
        refused: making.refused,
        bumped: making.bumped,
        version: plan.version(),
    })
}

// How many parts of the visits are on a stand, and how many are on none.
fn count_parts(visits: &[Visit]) -> Result<(u32, u32), Memory>
    ensures placed { IfOk result (λ counts. counts.0 ≡ count_by is_placed (parts_of visits.now)) }
    ensures unplaced { IfOk result
        (λ counts. counts.1 ≡ count_by is_unplaced (parts_of visits.now)) }
{
    let mut counts = (0, 0);
    for visit in visits {
        counts = count_more(counts, visit.parts.as_slice())?;
    }
    Ok(counts)
}

// The same for these parts, added to what was counted before.
fn count_more(counts: (u32, u32), parts: &[Part]) -> Result<(u32, u32), Memory>
    ensures placed { IfOk result (λ after. after.0 ≡ counts.0 + count_by is_placed parts.now) }
    ensures unplaced { IfOk result (λ after. after.1 ≡ counts.1 + count_by is_unplaced parts.now) }
{
    let (mut placed, mut unplaced) = counts;
    for part in parts {
        if is_placed(part) {
            placed = more(placed, 1)?;
        } else {
            unplaced = more(unplaced, 1)?;
        }
    }
    Ok((placed, unplaced))
}

fn is_placed(part: &Part) -> bool
    ensures is { result ≡ is_placed part.now }
{
    match part.place {
        Place::Planned(_) | Place::Actual(_) => true,
        Place::Unplaced(_) => false,
    }
}
