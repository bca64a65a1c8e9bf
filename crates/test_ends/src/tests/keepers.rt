// Keepers in memory.
use apron_base::{Keeper, ListKeeper, Listed};
use std::test::Fail;

// Whether the entries are these texts.
fn are(entries: &[Listed<u8>], want: &[&str]) -> bool {
    entries.len() == want.len()
        && entries
            .iter()
            .zip(want)
            .all(|(entry, want)| entry.as_slice() == want.as_bytes())
}

#[test]
fn a_keeper_fails_as_told_and_keeps_the_others(rt: HostRuntime) -> Result<(), Fail> {
    let alloc = rt.alloc();
    let mut keeper = ListKeeper::new(alloc, Vec::new(alloc), Vec::from_slice(alloc, &[1])?);
    let first = keeper.ready(alloc, 3).is_ok() && keeper.append(b"ab").is_ok();
    let second = keeper.ready(alloc, 3).is_ok() && keeper.append(b"cd").is_err();
    let third = keeper.ready(alloc, 3).is_ok() && keeper.append(b"efg").is_ok();
    assert!(rt; first && second && third);
    assert!(rt; are(keeper.entries(), &["ab", "efg"]));
    Ok(())
}
