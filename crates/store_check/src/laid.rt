// Whether a record and the slices of its trees are laid out as they have to be.
ghost use Rattle.std.specs.Prelude.{◌≡◌, [], ℕ, ◌<◌, get_or, MatchOption};
ghost use Rattle.std.specs.List.{list_all};
ghost use Rattle.store_runs.specs.Digits.{digits};
ghost use Rattle.store_runs.specs.Runs.{cut};
ghost use Rattle.store_check.specs.Decides.{Decides};
ghost use Rattle.store_check.specs.Laid.{Blank, good_path, New, First, FirstOf, Paths, Trees};
ghost use Rattle.store_check.specs.Lending.{LaidOut};

use crate::lent::Shelf;
use crate::runs::Runs;
use crate::tag::tag;
use names::limits::{ENTRIES, NAME_BYTES, SLOTS};
use names::tree::Size;
use store_runs::bits;

// Whether a path is the root's or valid.
fn good_path(path: &[u8]) -> bool
    ensures { result ≡ good_path path.now }
{
    path.is_empty() || names::path::valid_path(path)
}

// The paths of a store, or its trees.
impl<'a> Runs<'a> {
    // Whether every path is the root's or valid.
    fn good_paths(self) -> bool
        ensures { result ≡ list_all good_path (cut self.entry.lens.now self.entry.bytes.now) }
    {
        self.iter().all(|path| good_path(path))
    }

    // Whether no used slot before the slot k is at the path.
    fn is_new(self, map: u64, k: usize, path: &[u8]) -> bool
        requires { k < 64 }
        ensures { Decides (New (digits 64 map) (cut self.entry.lens.now self.entry.bytes.now) k path.now) result }
    {
        for (j, there) in (0..k).zip(self.iter()) {
            if !bits::is_set(map, j) && names::order::same_bytes(there, path) {
                return false;
            }
        }
        true
    }

    // Whether the slot k, if it is one of these and used, is the first at its path.
    fn is_first(self, map: u64, among: u64, k: usize) -> bool
        requires { k < 64 }
        ensures { Decides (FirstOf among (digits 64 map) (cut self.entry.lens.now self.entry.bytes.now) k) result }
    {
        !bits::is_set(among, k) || bits::is_set(map, k) || self.is_new(map, k, self.run(k))
    }

    // Whether each of these slots, if used, is the first at its path.
    fn all_first(self, map: u64, among: u64) -> bool
        ensures { Decides ((k : ℕ) → k < 64 → FirstOf among (digits 64 map) (cut self.entry.lens.now self.entry.bytes.now) k) result }
    {
        (0..SLOTS).all(|k| self.is_first(map, among, k))
    }

    // The slots whose paths have a number that came before: every other one, if used, is the first at its path.
    fn repeated(self, map: u64) -> u64
        ensures { (k : ℕ) → k < 64 → get_or (digits 64 result) k 0 ≡ 0 → First (digits 64 map) (cut self.entry.lens.now self.entry.bytes.now) k }
    {
        let mut seen = [0u64; SLOTS];
        let mut again: u64 = 0;
        for (k, path) in (0..SLOTS).zip(self.iter()) {
            if !bits::is_set(map, k) {
                let t = tag(path);
                let w = seen[t / 64];
                if bits::is_set(w, t % 64) {
                    again = bits::set(again, k);
                } else {
                    seen[t / 64] = bits::set(w, t % 64);
                }
            }
        }
        again
    }

    // Whether the paths of the used slots are different. Only a path with a number that came before is held against the earlier ones.
    fn apart(self, map: u64) -> bool
        ensures { Decides ((k : ℕ) → k < 64 → First (digits 64 map) (cut self.entry.lens.now self.entry.bytes.now) k) result }
    {
        let again = self.repeated(map);
        again == 0 || self.all_first(map, again)
    }

    // Whether the paths are good, and those of the used slots different.
    fn paths_good(self, map: u64) -> bool
        ensures { Decides (Paths (digits 64 map) (cut self.entry.lens.now self.entry.bytes.now)) result }
    {
        self.good_paths() && self.apart(map)
    }

    // Whether each tree is well formed, and there are so many entries and name bytes in all. By itself, so that what it works with stays in registers.
    #[inline(never)]
    fn trees_good(self, width: usize, all: Size) -> bool
        ensures { Decides (Trees width (cut self.entry.lens.now self.entry.bytes.now) all.entries all.name_bytes) result }
    {
        let mut left = all;
        for tree in self.iter() {
            let Some(size) = names_compact::judge::judge(tree, width) else {
                return false;
            };
            if left.entries < size.entries || left.name_bytes < size.name_bytes {
                return false;
            }
            left = Size {
                entries: left.entries - size.entries,
                name_bytes: left.name_bytes - size.name_bytes,
            };
        }
        left.entries == 0 && left.name_bytes == 0
    }
}

// A store whose trees are laid out as they have to be: well formed and within the limits, and their paths different and valid.
#[derive(Clone, Copy)]
pub struct Laid<'a> {
    pub store: Shelf<'a>,
    ghost laid: { LaidOut store },
}

impl<'a> Shelf<'a> {
    // Whether the slot k has the lengths that it may have: none where it is free.
    fn blank(self, k: usize) -> bool
        requires { k < 64 }
        ensures { Decides (Blank (get_or (digits 64 self.entry.record.free) k 0) (get_or self.entry.plens.now k 0) (get_or self.entry.tlens.now k 0)) result }
    {
        !bits::is_set(self.record.free, k) || (self.plens[k] == 0 && self.tlens[k] == 0)
    }

    // Whether the free slots have no path and no tree.
    fn blanks(self) -> bool
        ensures { Decides ((k : ℕ) → k < 64 → Blank (get_or (digits 64 self.entry.record.free) k 0) (get_or self.entry.plens.now k 0) (get_or self.entry.tlens.now k 0)) result }
    {
        (0..SLOTS).all(|k| self.blank(k))
    }

    // The store as one that is laid out as it has to be, if it is.
    pub fn laid(self) -> Option<Laid<'a>>
        ensures { MatchOption result (LaidOut self.entry → ⊥) (λ s. s.store ≡ self.entry) }
    {
        let r = self.record;
        let paths = Runs::of(self.plens, self.paths, r.paths)?;
        let trees = Runs::of(self.tlens, self.trees, r.trees)?;
        let all = Size {
            entries: r.entries,
            name_bytes: r.names,
        };
        if ENTRIES < r.entries
            || NAME_BYTES < r.names
            || !self.blanks()
            || !trees.trees_good(self.width, all)
            || !paths.paths_good(r.free)
        {
            return None;
        }
        Some(Laid { store: self })
    }
}
