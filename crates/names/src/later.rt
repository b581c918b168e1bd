// What an entry asks of those after it, whichever form the tree is in.
ghost use Rattle.std.specs.Prelude.{◌≡◌, ℕ, true};
ghost use Rattle.std.proofs.Math.Option as math;
ghost use Rattle.model.specs.Tree as model;
ghost use Rattle.names.specs.Check.{TwinIs, FitsIs, plain};
ghost use Rattle.names.specs.Later.{ReadsAs, NextAs, ReadsTo};

use crate::neighbour::Standing;
use crate::order::Key;
use std::cmp::Ordering;

// Bytes that hold entries end to end.
pub trait Entries {
    // The entries from a place to the end; none, where they are no entries to their end.
    ghost held: { Self → ℕ → math.Option model.Tree };

    // Where the bytes end.
    ghost end: { Self → ℕ };

    // The key of the entry at a place, and where the next one starts.
    fn key_at(&self, at: usize) -> Option<(Key<'_>, usize)>
        ensures { ReadsAs (held self.now) (end self.now) at result };

    // The same; where no entry is read, whether what stands there surely is damaged. Who cannot tell says no.
    fn next_at(&self, at: usize) -> Result<(Key<'_>, usize), bool>
        ensures { NextAs (held self.now) (end self.now) at result }
    {
        self.key_at(at).ok_or(false)
    }
}

// Bytes whose number is known, and which hold entries end to end: where no entry is read and bytes are left, there is damage.
pub trait Bounded {
    // The entries from a place to the end; none, where they are no entries to their end.
    ghost held: { Self → ℕ → math.Option model.Tree };

    // Where the bytes end.
    ghost end: { Self → ℕ };

    // The key of the entry at a place, and where the next one starts.
    fn key_at(&self, at: usize) -> Option<(Key<'_>, usize)>
        ensures { ReadsTo (held self.now) (end self.now) at result };

    // How many bytes there are.
    fn len(&self) -> usize
        ensures { result ≡ end self.now };
}

impl<B: Bounded> Entries for B {
    ghost held = { B.held };

    ghost end = { B.end };

    fn key_at(&self, at: usize) -> Option<(Key<'_>, usize)> {
        Bounded::key_at(self, at)
    }

    fn next_at(&self, at: usize) -> Result<(Key<'_>, usize), bool> {
        Bounded::key_at(self, at).ok_or(at < self.len())
    }
}

// Whether the tree of the name is among the entries from `from` on, up to the first that comes after it, or what follows is surely damaged: so damage ends
// the check where it is first met.
fn has_twin<E: Entries>(entries: &E, from: usize, name: &[u8]) -> bool
    ensures { TwinIs name.now (E.held entries.now from) result }
{
    let twin = Key { name, tree: true };
    let mut at = from;
    loop {
        let (key, next) = match entries.next_at(at) {
            Ok(entry) => entry,
            Err(damaged) => return damaged,
        };
        match crate::order::name_order(key, twin) {
            Ordering::Less => at = next,
            Ordering::Equal => return true,
            Ordering::Greater => return false,
        }
    }
}

// Whether an entry may follow the one before it, where the entries from `next` on are well formed.
pub fn may_follow<E: Entries>(entries: &E, next: usize, prev: Key<'_>, key: Key<'_>) -> bool
    requires { plain prev.name.now ≡ true }
    ensures { FitsIs prev.entry.name.now prev.entry.tree key.entry.name.now key.entry.tree (E.held entries.now next) result }
{
    match crate::neighbour::step(prev, key) {
        Standing::Apart => true,
        Standing::Within => !has_twin(entries, next, prev.name),
        Standing::Wrong => false,
    }
}
