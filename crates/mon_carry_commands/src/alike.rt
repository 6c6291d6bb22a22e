//! Whether two watches are of one file.

ghost use Rattle.std.specs.Prelude.{◌↔◌, IsTrue};
ghost use Rattle.mon_carry_commands.specs.Alike.{AreAlike, IsAlike};

use mon_board::{Watch, Watched};

/// Returns `true` if two watches have equal instances, each with equal sizes of its window.
pub(crate) fn are_alike(old: &Watch, new: &Watch) -> bool
    ensures { IsTrue result ↔ AreAlike old.now.instances new.now.instances }
{
    have_alike(old.instances(), new.instances())
}

/// Returns `true` if these instances are equal, each with equal sizes of its window.
fn have_alike(old: &[Watched], new: &[Watched]) -> bool
    ensures { IsTrue result ↔ AreAlike old.now new.now }
{
    if old.len() != new.len() {
        return false;
    }
    for i in 0..old.len() {
        if !is_alike(&old[i], &new[i]) {
            return false;
        }
    }
    true
}

/// Returns `true` if the instances are equal, and the sizes of their windows.
fn is_alike(old: &Watched, new: &Watched) -> bool
    ensures { IsTrue result ↔ IsAlike old.now new.now }
{
    let name = &new.instance.name;
    if !old
        .instance
        .compare(new.instance.engine.as_slice(), name)
        .is_eq()
    {
        return false;
    }
    old.window == new.window && old.epoch == new.epoch
}
