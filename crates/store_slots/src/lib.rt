// The trees of an editor, in lent slices: for each of 64 slots a path and a tree.
#![tactic(auto)]

ghost use Rattle.std.specs.Prelude.{◌≡◌, true, ℕ, ◌+◌, ◌-◌, ◌≤◌, ◌<◌, List, [], length, set};
ghost use Rattle.std.proofs.Math.Option.{none};
ghost use Rattle.model.specs.Bytes.{Bytes, has};
ghost use Rattle.model.specs.Map.{find as finds, put, del};
ghost use Rattle.model.specs.Editor.{at, fits};
ghost use Rattle.model.specs.Write.{bottom};
ghost use Rattle.store_runs.specs.Digits.{digits};
ghost use Rattle.store_runs.specs.Find.{find_from};
ghost use Rattle.store_runs.specs.Runs.{total, cut, run_of, Sound};
ghost use Rattle.store_slots.specs.View.{held_as, held_at, aside_of, taken_of, start_slot, tree_room, fresh, SlotIs, Used, SameWrite};
ghost use Rattle.store_slots.specs.Stores.{KeysSound, LaidIn, OtherKeys, OtherTrees, SameLent, SameTrees, Shows, TreesSound, path_in_slot, view_in};

use names::limits::SLOTS;
use names_compact::compact::Tree;

// What is in use of the slices, and the open write. In `free`, set bits are free slots; in `hidden`, free ones and those that the write has taken.
// `open` is 0 where no write is open, 1 for one from the root and 2 for one from a cursor; `aside` and `stacked` count its trees, and `asked` is
// the slot of the requested one.
#[repr(C)]
#[derive(Clone, Copy)]
pub struct Record {
    pub free: u64,
    pub hidden: u64,
    pub paths: usize,
    pub trees: usize,
    pub entries: usize,
    pub names: usize,
    pub open: u64,
    pub aside: usize,
    pub stacked: usize,
    pub asked: usize,
}

// A lent store: the record, and the slices of its trees.
#[derive(Drop)]
pub struct Store<'a> {
    pub ed: Record,
    pub plens: &'a mut [u64],
    pub paths: &'a mut [u8],
    pub tlens: &'a mut [u64],
    pub trees: &'a mut [u8],
}

// The same, to be read.
#[derive(Clone, Copy)]
pub struct View<'a> {
    pub ed: Record,
    pub plens: &'a [u64],
    pub paths: &'a [u8],
    pub tlens: &'a [u64],
    pub trees: &'a [u8],
}

impl<'a> View<'a> {
    // The slot of the cached tree at a path.
    pub fn find(self, path: &[u8]) -> Option<usize>
        requires { KeysSound self × (length self.plens.now ≡ 64) }
        ensures { (w : ℕ) (runs : List Bytes) → length runs ≡ 64 → SlotIs w (digits 64 self.entry.ed.hidden) (cut self.entry.plens.now self.entry.paths.now) runs path.now result }
    {
        store_runs::runs::find(self.ed.hidden, self.plens, self.paths, self.ed.paths, path)
    }

    // The first used slot at a path, whether its tree is cached or taken.
    pub fn find_used(self, path: &[u8]) -> Option<usize>
        requires { KeysSound self × (length self.plens.now ≡ 64) }
        ensures { result ≡ find_from 0 (digits 64 self.entry.ed.free) (cut self.entry.plens.now self.entry.paths.now) path.now }
    {
        store_runs::runs::find(self.ed.free, self.plens, self.paths, self.ed.paths, path)
    }

    // The path of a slot, as a part of the caller's bytes.
    pub fn path_in(self, slot: usize) -> &'a [u8]
        requires { KeysSound self × (slot < length self.plens.now) }
        ensures { result.now ≡ run_of self.entry.plens.now self.entry.paths.now slot }
    {
        store_runs::runs::run(self.plens, self.paths, self.ed.paths, slot)
    }

    // The tree of a slot, as a part of the caller's bytes.
    pub fn tree_in(self, slot: usize) -> &'a [u8]
        requires { TreesSound self × (slot < length self.tlens.now) }
        ensures { result.now ≡ run_of self.entry.tlens.now self.entry.trees.now slot }
    {
        store_runs::runs::run(self.tlens, self.trees, self.ed.trees, slot)
    }
}

// How many slots are used.
pub fn used(r: Record) -> usize
    ensures { result ≡ 64 - total (digits 64 r.free) }
{
    SLOTS - store_runs::bits::count(r.free)
}

// The slot of the tree that the open write started at: the first set aside, or the requested one where none is.
pub fn start(r: Record, order: &[u64]) -> usize
    requires { length order.now ≡ 64 }
    ensures start { (w : ℕ) (plens paths tlens trees : List ℕ) → held_at w plens paths tlens trees result ≡ bottom (held_at w plens paths tlens trees r.asked) (aside_of w r plens paths tlens trees order.now) }
    ensures taken { has result (taken_of r order.now) ≡ true }
    ensures slot { result ≡ start_slot r order.now }
{
    if r.aside == 0 {
        r.asked
    } else {
        order[0] as usize
    }
}

impl Store<'_> {
    // The store, to be read.
    pub fn view(&self) -> View<'_>
        ensures { Shows result self.now }
    {
        View {
            ed: self.ed,
            plens: &*self.plens,
            paths: &*self.paths,
            tlens: &*self.tlens,
            trees: &*self.trees,
        }
    }

    // Drops the tree in a slot.
    pub fn drop_slot(&mut self, width: usize, k: usize)
        requires { LaidIn width self.old × (width ≤ 64) × Used self.old.ed k }
        ensures view { view_in width self.new ≡ del at (path_in_slot self.old k) (view_in width self.old) }
        ensures laid { LaidIn width self.new }
        ensures others { OtherKeys self.old k self.new × OtherTrees self.old k self.new
            × (digits 64 self.new.ed.free ≡ set (digits 64 self.old.ed.free) k 1) × (digits 64 self.new.ed.hidden ≡ set (digits 64 self.old.ed.hidden) k 1) }
        ensures same { (self.old.ed.hidden ≡ self.old.ed.free → self.new.ed.hidden ≡ self.new.ed.free) × SameWrite self.old.ed self.new.ed }
        ensures lent { SameLent self.old self.new }
    {
        let n = self.plens[k] as usize;
        let m = self.tlens[k] as usize;
        let tree = Tree {
            bytes: self.view().tree_in(k),
            width,
        };
        let es = tree.count();
        let ns = m - es * (2 + width);
        let r = self.ed;
        let left = r.entries - es;
        let bytes = r.names - ns;
        self.ed = Record {
            free: store_runs::bits::set(r.free, k),
            hidden: store_runs::bits::set(r.hidden, k),
            paths: store_runs::runs::remove(&mut *self.plens, &mut *self.paths, r.paths, k, 0, n),
            trees: store_runs::runs::remove(&mut *self.tlens, &mut *self.trees, r.trees, k, 0, m),
            entries: left,
            names: bytes,
            ..r
        };
    }

    // Caches an empty tree under a path that has none, in the first free slot, and gives the slot.
    pub fn add_empty(&mut self, width: usize, path: &[u8]) -> usize
        requires { LaidIn width self.old × (self.old.ed.hidden ≡ self.old.ed.free) × (finds at path.now (view_in width self.old) ≡ none)
            × (fits (put at (held_as path.now []) (view_in width self.old)) ≡ true) }
        ensures view { view_in width self.new ≡ put at (held_as path.now []) (view_in width self.old) }
        ensures slot { Used self.new.ed result × (path_in_slot self.new result ≡ path.now) }
        ensures laid { LaidIn width self.new }
        ensures others { OtherKeys self.old result self.new × (digits 64 self.new.ed.free ≡ set (digits 64 self.old.ed.free) result 0) }
        ensures same { (self.new.ed.hidden ≡ self.new.ed.free) × SameWrite self.old.ed self.new.ed }
        ensures trees { SameTrees self.old self.new }
        ensures lent { SameLent self.old self.new }
    {
        let r = self.ed;
        let slot = store_runs::bits::first(r.free);
        let free = store_runs::bits::clear(r.free, slot);
        self.ed = Record {
            free,
            hidden: free,
            paths: store_runs::runs::insert(
                &mut *self.plens,
                &mut *self.paths,
                r.paths,
                slot,
                0,
                path,
            ),
            ..r
        };
        slot
    }

    // Drops every tree and the write. Looks at nothing that the slices held.
    pub fn drop_all(&mut self, width: usize)
        requires { (length self.old.plens.now ≡ 64) × (length self.old.tlens.now ≡ 64) × (length self.old.paths.now ≡ 8192) × (length self.old.trees.now ≡ tree_room width) }
        ensures view { view_in width self.new ≡ [] }
        ensures laid { LaidIn width self.new }
        ensures record { self.new.ed ≡ fresh }
        ensures bytes { (self.new.paths.now ≡ self.old.paths.now) × (self.new.trees.now ≡ self.old.trees.now) }
        ensures lent { SameLent self.old self.new }
    {
        store_runs::runs::clear(&mut *self.plens);
        store_runs::runs::clear(&mut *self.tlens);
        self.ed = Record {
            free: u64::MAX,
            hidden: u64::MAX,
            paths: 0,
            trees: 0,
            entries: 0,
            names: 0,
            open: 0,
            aside: 0,
            stacked: 0,
            asked: 0,
        };
    }
}
