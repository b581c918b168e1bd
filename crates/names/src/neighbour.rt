// Two entries that stand next to each other in a tree.
ghost use Rattle.std.specs.Prelude.{◌≡◌, true};
ghost use Rattle.model.specs.Tree.{good_name};
ghost use Rattle.names.specs.Check.{Shares, plain, plain_from};
ghost use Rattle.names.specs.Standings.{StandsAs};

use crate::order::Key;

// Whether a name has neither slash nor NUL from place `from` on.
pub fn plain_from(name: &[u8], from: usize) -> bool
    ensures { result ≡ plain_from name.now from }
{
    // Stays: by `iter().all(..)` the check of an entry with 6 bytes of name takes 120 instructions in place of 107, and 113 are allowed.
    for i in from..name.len() {
        if name[i] == 47 {
            return false;
        }
        if name[i] == 0 {
            return false;
        }
    }
    true
}

// How an entry stands to the one before it: it may follow, and no later one has the name of the one before; it may follow; it may not.
#[derive(Clone, Copy, PartialEq, Eq)]
pub enum Standing {
    Apart,
    Within,
    Wrong,
}

// How two entries stand to each other whose names begin with i bytes alike and have neither slash nor NUL.
fn step_at(prev: Key<'_>, next: Key<'_>, i: usize) -> Standing
    requires { Shares prev.name.now next.name.now i × (plain prev.name.now ≡ true) × (good_name next.name.now ≡ true) }
    ensures { StandsAs prev.entry.name.now prev.entry.tree next.entry.name.now next.entry.tree result }
{
    if i < prev.name.len() {
        if i < next.name.len() {
            return if prev.name[i] < next.name[i] {
                Standing::Apart
            } else {
                Standing::Wrong
            };
        }
        if next.tree {
            return if prev.name[i] < 47 {
                Standing::Apart
            } else {
                Standing::Wrong
            };
        }
        return Standing::Wrong;
    }
    if i < next.name.len() {
        if 47 < next.name[i] {
            return Standing::Apart;
        }
        return if prev.tree {
            Standing::Wrong
        } else {
            Standing::Within
        };
    }
    Standing::Wrong
}

// How an entry stands to the one before it, whose name has neither slash nor NUL: so of its own name only what is not shared with that is looked at.
pub fn step(prev: Key<'_>, next: Key<'_>) -> Standing
    requires { plain prev.name.now ≡ true }
    ensures { StandsAs prev.entry.name.now prev.entry.tree next.entry.name.now next.entry.tree result }
{
    if next.name.is_empty() || 255 < next.name.len() {
        return Standing::Wrong;
    }
    let i = crate::order::shared(prev.name, next.name);
    if plain_from(next.name, i) {
        step_at(prev, next, i)
    } else {
        Standing::Wrong
    }
}
