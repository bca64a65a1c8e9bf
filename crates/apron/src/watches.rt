// The watches that desks can follow.
ghost use Rattle.std.specs.Prelude.{◌≡◌, IfOk, OnOk};
ghost use Rattle.apron_base.specs.Keeper.{with_last};
ghost use Rattle.watch_list.specs.Watches.{CanAddWatch};
ghost use Rattle.apron.specs.Watches.{all_and_high, up_to};

use apron_base::{Memory, Minute, Name};
use std::alloc::Global;
use watch_list::{Shown, Watch, Watches};

/// ALL, of each bump, and HIGH, of those of visits of the classes 0 to 2. The only error is a lack
/// of memory.
pub(crate) fn all_and_high(alloc: Global) -> Result<Watches<Shown, Shown>, Memory>
    ensures are { IfOk result (λ watches. watches ≡ all_and_high) }
{
    let mut watches = Watches::new(alloc)?;
    add_watch(&mut watches, Name::literal(b"ALL"), 9)?;
    add_watch(&mut watches, Name::literal(b"HIGH"), 2)?;
    Ok(watches)
}

// Adds a watch of the bumps of visits up to this class, on any stand and at any minute.
fn add_watch(watches: &mut Watches<Shown, Shown>, name: Name, top_class: u8) -> Result<(), Memory>
    requires place { CanAddWatch watches.old (up_to name top_class) }
    ensures last { OnOk result (watches.new ≡ with_last (up_to name top_class) watches.old) }
{
    let shown = Shown {
        top_class,
        stand: None,
        from: 0,
        until: Minute::MAX,
    };
    match watches.add(Watch::new(name, shown, shown)) {
        Ok(()) => Ok(()),
        // The name is not taken, and there is room for it.
        Err(_) => Err(Memory),
    }
}
