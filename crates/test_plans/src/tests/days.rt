// Days of some sizes. The expected numbers come from a slow program in another language, which
// looks at every minute and every two parts.
use generated_day::{Summary, make_day};

// Each visit whose part is on no stand, and each that was moved by a message, is one of the parts
// that there are.
#[test]
fn days_end_with_these_numbers(rt: HostRuntime) {
    let days = [
        (1, [1, 1, 0, 0, 0, 2]),
        (2, [2, 2, 0, 0, 0, 4]),
        (4, [4, 4, 0, 0, 0, 9]),
        (50, [50, 50, 0, 6, 0, 112]),
        (90, [90, 90, 0, 37, 0, 202]),
        (150, [150, 145, 5, 139, 0, 332]),
        (200, [200, 191, 9, 223, 1, 442]),
    ];
    for (visits, [added, placed, unplaced, refused, bumped, version]) in days {
        let want = Summary {
            visits: added,
            placed,
            unplaced,
            refused,
            bumped,
            version,
        };
        assert_eq!(rt; make_day(rt.alloc(), visits), Ok(want), "{visits}");
    }
}
