// Whether the open write of a store, if one is open, is one that can be.
ghost use Rattle.std.specs.Prelude.{◌≡◌, true, false, ◌&&◌, ◌+◌, ◌≤◌, ◌<◌, [], ◌∷◌, length, take, get_or};
ghost use Rattle.model.specs.Bytes.{has};
ghost use Rattle.model.specs.Map.{find, is_some};
ghost use Rattle.model.specs.Tree.{entry_of, well_formed};
ghost use Rattle.model.specs.Editor.{at};
ghost use Rattle.model.specs.Valid.{is_tree_entry, has_parent, have_parents, aside_good, taken_good};
ghost use Rattle.names_compact.specs.Compact.{unpack};
ghost use Rattle.store_runs.specs.Runs.{cut};
ghost use Rattle.store_slots.specs.View.{taken_of, Closed, Opened};
ghost use Rattle.store_check.specs.Decides.{Decides};
ghost use Rattle.store_check.specs.Lending.{TakenOut, WrittenOut, path_in, start_in, held_in, cached_in, aside_in, first_aside, stacked_in, ParentedIn, HangingIn};
ghost use Rattle.store_check.specs.Parents.{Begins, Read};
ghost use Rattle.store_check.specs.Once.{taking_once};
ghost use Rattle.store_check.specs.Written.{Marks, start_fine};

use crate::laid::Laid;
use crate::lent::Shelf;
use crate::parents::{Known, Parent, Paths, Stack};
use crate::runs::Runs;
use names::limits::SLOTS;
use names::order::Key;
use names_compact::compact::Tree;
use store_runs::bits;
use store_slots::{Record, View};

// The map with a slot set that is not set; None where there is no such slot.
fn mark(map: u64, slot: u64) -> Option<u64>
    ensures { Marks (slot ∷ []) map result }
{
    let k = slot as usize;
    if SLOTS <= k || bits::is_set(map, k) {
        return None;
    }
    Some(bits::set(map, k))
}

// The map with the slots set, the last first.
fn mark_all(map: u64, slots: &[u64]) -> Option<u64>
    ensures { Marks slots.now map result }
{
    let mut all = map;
    for slot in slots.iter().rev() {
        all = mark(all, *slot)?;
    }
    Some(all)
}

// The free map with the slots set that a write has taken.
fn mark_taken(r: Record, order: &[u64]) -> Option<u64>
    requires { (length order.now ≡ 64) × (r.aside + r.stacked ≤ 63) }
    ensures { Marks (taken_of r order.now) r.free result }
{
    let last = mark_all(r.free, &order[SLOTS - r.stacked..])?;
    let first = mark_all(last, &order[..r.aside])?;
    mark(first, r.asked as u64)
}

// Whether the slots that a write has taken are used and different, and hidden with the free ones.
fn taken_ok(r: Record, order: &[u64]) -> bool
    requires { length order.now ≡ 64 }
    ensures { Decides (Opened r order.now) result }
{
    if 2 < r.open || SLOTS <= r.aside || SLOTS - r.aside <= r.stacked {
        return false;
    }
    mark_taken(r, order) == Some(r.hidden)
}

// Whether no write is open.
fn closed_ok(r: Record) -> bool
    ensures { Decides (Closed r) result }
{
    r.hidden == r.free && r.aside == 0 && r.stacked == 0 && r.asked == 0
}

// Whether a slot is among the first n of the table.
fn is_among(order: &[u64], n: usize, k: usize) -> bool
    requires { n ≤ length order.now }
    ensures { result ≡ has k (take n order.now) }
{
    order[..n].contains(&(k as u64))
}

// Whether a tree has a tree entry of this name.
fn has_tree(tree: Tree<'_>, name: &[u8]) -> bool
    requires { (well_formed tree.width (unpack tree.width tree.bytes.now) ≡ true) × (has 47 name.now ≡ false) }
    ensures { result ≡ is_tree_entry (entry_of name.now (unpack tree.entry.width tree.entry.bytes.now)) }
{
    tree.search(Key { name, tree: true }).is_ok()
}

// A store that is laid out as it has to be, with an open write whose trees are in slots of their own.
#[derive(Clone, Copy)]
struct Write<'a> {
    store: Shelf<'a>,
    order: &'a [u64],
    ghost open: { 1 ≤ store.record.«open» },
    ghost taken: { TakenOut store order.now } by { taking_once store.width store.record store.plens.now store.paths.now store.tlens.now store.trees.now order.now },
}

impl<'a> Write<'a> {
    // The path of a slot.
    fn path(self, k: usize) -> &'a [u8]
        requires { k < 64 }
        ensures { result.now ≡ path_in self.entry.store k }
    {
        let paths = Runs {
            lens: self.store.plens,
            bytes: self.store.paths,
            used: self.store.record.paths,
        };
        paths.run(k)
    }

    // The tree of a slot.
    fn tree(self, k: usize) -> Tree<'a>
        requires { k < 64 }
        ensures { (result.width ≡ self.entry.store.width) × (result.bytes.now ≡ get_or (cut self.entry.store.tlens.now self.entry.store.trees.now) k []) × Read result.width result.bytes.now }
    {
        let trees = Runs {
            lens: self.store.tlens,
            bytes: self.store.trees,
            used: self.store.record.trees,
        };
        let width = self.store.width;
        Tree {
            bytes: trees.run(k),
            width,
        }
    }

    // Whether the tree in a slot lies one component below one of the first n that were set aside, which has a tree entry for it.
    fn has_parent(self, n: usize, slot: usize) -> bool
        requires { (n ≤ self.store.record.aside) × (slot < 64) }
        ensures { result ≡ has_parent (path_in self.entry.store slot) (first_aside self.entry.store self.entry.order.now n) }
    {
        let s = self.store;
        let path = self.path(slot);
        let parent = names::path::parent(path);
        let Some(k) = store_runs::runs::find(
            s.record.free,
            s.plens,
            s.paths,
            s.record.paths,
            parent,
        ) else {
            return false;
        };
        is_among(self.order, n, k) && has_tree(self.tree(k), names::path::filename(path))
    }

    // Whether each tree set aside but the first lies below one that was set aside before it.
    fn aside_ok(self) -> bool
        requires { 1 ≤ self.store.record.aside }
        ensures { result ≡ aside_good (path_in self.entry.store (get_or self.entry.order.now 0 0)) (aside_in self.entry.store self.entry.order.now) }
    {
        for i in (1..self.store.record.aside).rev() {
            if !self.has_parent(i, self.order[i] as usize) {
                return false;
            }
        }
        true
    }

    // How far down the stacked trees lie below those that were set aside, in the order of these and of their entries, and whether the requested tree comes after them.
    fn walked(self, begins: &[u64]) -> Known
        requires { Begins self.store.plens.now 64 begins.now }
        ensures { HangingIn self.entry.store self.entry.order.now result }
    {
        let s = self.store;
        let paths = Paths {
            lens: s.plens,
            bytes: s.paths,
            begins,
        };
        let stack = Stack {
            paths,
            slots: self.order,
            low: SLOTS - s.record.stacked,
        };
        let asked = paths.at(s.record.asked);
        let mut known = Known {
            low: SLOTS,
            asked: false,
        };
        for slot in &self.order[..s.record.aside] {
            if known.low <= stack.low {
                return known;
            }
            let k = *slot as usize;
            let parent = Parent {
                home: paths.at(k),
                tree: self.tree(k),
            };
            known = parent.known_children(stack, known.low, asked);
        }
        known
    }

    // The same, where trees are stacked.
    fn hanging(self) -> Known
        ensures { HangingIn self.entry.store self.entry.order.now result }
    {
        if self.store.record.stacked == 0 {
            return Known {
                low: SLOTS,
                asked: false,
            };
        }
        let begins = crate::parents::starts(self.store.plens);
        self.walked(&begins)
    }

    // Whether the requested tree lies below one that was set aside, where that is not known.
    fn asked_ok(self, known: bool) -> bool
        requires { known ≡ true → has_parent (path_in self.store self.store.record.asked) (aside_in self.store self.order.now) ≡ true }
        ensures { result ≡ has_parent (path_in self.entry.store self.entry.store.record.asked) (aside_in self.entry.store self.entry.order.now) }
    {
        known || self.has_parent(self.store.record.aside, self.store.record.asked)
    }

    // Whether each stacked tree lies below one that was set aside, where those from `low` on do.
    fn stacked_ok(self, low: usize) -> bool
        requires { ParentedIn self.store self.order.now low }
        ensures { result ≡ have_parents (stacked_in self.entry.store self.entry.order.now) (aside_in self.entry.store self.entry.order.now) }
    {
        for i in (SLOTS - self.store.record.stacked..low).rev() {
            if !self.has_parent(self.store.record.aside, self.order[i] as usize) {
                return false;
            }
        }
        true
    }

    // Whether the requested tree and each stacked tree lie below one that was set aside.
    fn below_ok(self) -> bool
        ensures { result ≡ (has_parent (path_in self.entry.store self.entry.store.record.asked) (aside_in self.entry.store self.entry.order.now) && have_parents (stacked_in self.entry.store self.entry.order.now) (aside_in self.entry.store self.entry.order.now)) }
    {
        let known = self.hanging();
        self.asked_ok(known.asked) && self.stacked_ok(known.low)
    }

    // Whether the trees that are taken hang together below the start.
    fn chain_ok(self) -> bool
        ensures { result ≡ taken_good (start_in self.entry.store self.entry.order.now) (held_in self.entry.store self.entry.store.record.asked) (stacked_in self.entry.store self.entry.order.now) (aside_in self.entry.store self.entry.order.now) }
    {
        if self.store.record.aside == 0 {
            return self.store.record.stacked == 0;
        }
        self.aside_ok() && self.below_ok()
    }

    // Whether the write started at a root where it says so, and a root is cached or is the start.
    fn start_ok(self) -> bool
        ensures { result ≡ start_fine self.entry.store.record.«open» (start_in self.entry.store self.entry.order.now) (cached_in self.entry.store) }
    {
        let s = self.store;
        s.plens[store_slots::start(s.record, self.order)] == 0
            || (s.record.open != 1 && (Laid { store: s }).root_cached())
    }
}

impl<'a> Laid<'a> {
    // Whether a root is cached.
    fn root_cached(self) -> bool
        ensures { result ≡ is_some (find at [] (cached_in self.entry.store)) }
    {
        let s = self.store;
        let v = View {
            ed: s.record,
            plens: s.plens,
            paths: s.paths,
            tlens: s.tlens,
            trees: s.trees,
        };
        v.find(b"").is_some()
    }

    // Whether the open write, if one is open, is one that can be.
    pub fn write_ok(self, order: &[u64]) -> bool
        requires { (length order.now ≡ 64) × (self.store.width ≤ 64) }
        ensures { Decides (WrittenOut self.entry.store order.now) result }
    {
        let store = self.store;
        if store.record.open == 0 {
            return closed_ok(store.record) && self.root_cached();
        }
        if !taken_ok(store.record, order) {
            return false;
        }
        let write = Write { store, order };
        write.start_ok() && write.chain_ok()
    }
}
