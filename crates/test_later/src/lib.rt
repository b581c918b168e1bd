// Entries of another crate's making, held against what an entry asks of those after it: `Listed` has the reading of an entry alone, `Torn` knows where its
// bytes end.
#![tactic(auto)]

use names::later::{Bounded, Entries};
use names::order::Key;

// Entries of which nothing is damaged, in places of one each.
#[derive(Clone, Copy)]
pub struct Listed<'a> {
    pub keys: &'a [Key<'a>],
}

impl Entries for Listed<'_> {
    ghost use Rattle.std.specs.Prelude.{length};
    ghost use Rattle.test_later.specs.Listed.{listed};

    ghost held = { λ s at. listed s.keys.now at };

    ghost end = { λ s. length s.keys.now };

    fn key_at(&self, at: usize) -> Option<(Key<'_>, usize)> {
        let key = *self.keys.get(at)?;
        Some((key, at + 1))
    }
}

// Entries behind which stands a byte that is none.
#[derive(Clone, Copy)]
pub struct Torn<'a> {
    pub keys: &'a [Key<'a>],
}

impl Bounded for Torn<'_> {
    ghost use Rattle.std.specs.Prelude.{length, ◌+◌};
    ghost use Rattle.std.proofs.Math.Option.{none};

    ghost held = { λ s at. none };

    ghost end = { λ s. length s.keys.now + 1 };

    fn key_at(&self, at: usize) -> Option<(Key<'_>, usize)> {
        let key = *self.keys.get(at)?;
        Some((key, at + 1))
    }

    fn len(&self) -> usize {
        self.keys.len() + 1
    }
}

#[cfg(test)]
mod tests {
    use super::*;
    use names::later::may_follow;

    const FILE: Key<'static> = Key {
        name: b"a",
        tree: false,
    };

    const BETWEEN: Key<'static> = Key {
        name: b"a!",
        tree: false,
    };

    const TREE: Key<'static> = Key {
        name: b"a",
        tree: true,
    };

    const LAST: Key<'static> = Key {
        name: b"b",
        tree: false,
    };

    // Whether a file `a!` may follow a file `a` before the entries from the second on.
    fn follows<E: Entries>(entries: &E) -> bool {
        names::eight::plain_name(FILE.name) && may_follow(entries, 1, FILE, BETWEEN)
    }

    // The tree of a file's name may not stand behind the file, also with others between. Git orders that tree as `a/`.
    #[test]
    fn tree_of_a_files_name(rt: HostRuntime) {
        let twin = [BETWEEN, TREE];
        let none = [BETWEEN, LAST];
        assert!(rt; !follows(&Listed { keys: &twin }));
        assert!(rt; follows(&Listed { keys: &none }));
        assert!(rt; !follows(&Torn { keys: &twin }));
        assert!(rt; follows(&Torn { keys: &none }));
    }

    // Who can tell that what follows is damaged refuses at once, and who cannot goes on.
    #[test]
    fn damage(rt: HostRuntime) {
        let keys = [BETWEEN];
        assert!(rt; follows(&Listed { keys: &keys }));
        assert!(rt; !follows(&Torn { keys: &keys }));
    }
}
