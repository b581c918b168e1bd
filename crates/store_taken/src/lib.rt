// The trees that an open write has taken: their slots' numbers stand in a lent table, those set aside from its front, the start tree first,
// those stacked at its back, the next to be taken first. A tree that is neither is in hand.
#![tactic(auto)]

ghost use Rattle.std.specs.Prelude.{◌≡◌, ℕ, ◌+◌, ◌-◌, ◌≤◌, ◌<◌, List, [], ◌∷◌, length, get_or, set, replicate, true, not, ◌&&◌, eqb};
ghost use Rattle.model.specs.Bytes.{has};
ghost use Rattle.std.proofs.Math.Option.{none};
ghost use Rattle.model.specs.Map.{put};
ghost use Rattle.model.specs.Editor.{at};
ghost use Rattle.store_runs.specs.Digits.{digits};
ghost use Rattle.store_runs.specs.Runs.{cut, Sound};
ghost use Rattle.store_slots.specs.View.{Laid, Used, Ordered, SameWrite, editor_of, held_at, cached_of};
ghost use Rattle.store_slots.specs.Stores.{LaidIn, SameLent, cached_in, held_in_slot};
ghost use Rattle.store_taken.specs.Taken.{going_in, going_of, stacked_on, kept_on, taken_off, Between, Cached, SameSlots, SameTree, writing_of, all_taken, joined, mark_if};

use names::limits::SLOTS;
use names_compact::compact::Tree;
use store_slots::{Record, Store};

// Takes a cached tree off the cache and stacks it.
pub fn stack(ed: &mut Record, order: &mut [u64], slot: usize)
    requires { ((hand : List ℕ) × Between ed.old order.old hand) × Cached ed.old slot }
    ensures going { (w : ℕ) (plens paths tlens trees : List ℕ) → Laid w ed.old plens paths tlens trees →
        going_of w ed.new plens paths tlens trees order.new ≡ stacked_on (held_at w plens paths tlens trees slot) (taken_off (held_at w plens paths tlens trees slot) (going_of w ed.old plens paths tlens trees order.old)) }
    ensures between { (hand : List ℕ) → Between ed.old order.old hand → Between ed.new order.new hand }
    ensures same { SameSlots ed.old ed.new × (ed.new.«open» ≡ ed.old.«open») × (ed.new.aside ≡ ed.old.aside) × (ed.new.stacked ≡ ed.old.stacked + 1) × (ed.new.asked ≡ ed.old.asked) }
{
    let n = ed.stacked + 1;
    order[SLOTS - n] = slot as u64;
    ed.hidden = store_runs::bits::set(ed.hidden, slot);
    ed.stacked = n;
}

// Takes the next tree off the stack.
pub fn pop(ed: &mut Record, order: &[u64]) -> usize
    requires { Between ed.old order.now [] × (0 < ed.old.stacked) }
    ensures going { (w : ℕ) (plens paths tlens trees : List ℕ) → going_of w ed.old plens paths tlens trees order.now
        ≡ stacked_on (held_at w plens paths tlens trees result) (going_of w ed.new plens paths tlens trees order.now) }
    ensures between { Between ed.new order.now (result ∷ []) }
    ensures same { SameSlots ed.old ed.new × (ed.new.hidden ≡ ed.old.hidden) × (ed.new.«open» ≡ ed.old.«open») × (ed.new.aside ≡ ed.old.aside) × (ed.new.stacked ≡ ed.old.stacked - 1) × (ed.new.asked ≡ ed.old.asked) }
{
    let n = ed.stacked;
    let k = order[SLOTS - n] as usize;
    ed.stacked = n - 1;
    k
}

// Sets the tree in hand aside.
pub fn set_aside(ed: &mut Record, order: &mut [u64], slot: usize)
    requires { Between ed.old order.old (slot ∷ []) }
    ensures going { (w : ℕ) (plens paths tlens trees : List ℕ) → going_of w ed.new plens paths tlens trees order.new
        ≡ kept_on (held_at w plens paths tlens trees slot) (going_of w ed.old plens paths tlens trees order.old) }
    ensures between { Between ed.new order.new [] }
    ensures same { SameSlots ed.old ed.new × (ed.new.hidden ≡ ed.old.hidden) × (ed.new.«open» ≡ ed.old.«open») × (ed.new.aside ≡ ed.old.aside + 1) × (ed.new.stacked ≡ ed.old.stacked) × (ed.new.asked ≡ ed.old.asked) }
{
    let n = ed.aside;
    order[n] = slot as u64;
    ed.aside = n + 1;
}

// Takes the tree that was set aside last.
pub fn latest(ed: &mut Record, order: &[u64]) -> usize
    requires { Between ed.old order.now [] × (0 < ed.old.aside) }
    ensures going { (w : ℕ) (plens paths tlens trees : List ℕ) → going_of w ed.old plens paths tlens trees order.now
        ≡ kept_on (held_at w plens paths tlens trees result) (going_of w ed.new plens paths tlens trees order.now) }
    ensures between { Between ed.new order.now (result ∷ []) }
    ensures same { SameSlots ed.old ed.new × (ed.new.hidden ≡ ed.old.hidden) × (ed.new.«open» ≡ ed.old.«open») × (ed.new.aside ≡ ed.old.aside - 1) × (ed.new.stacked ≡ ed.old.stacked) × (ed.new.asked ≡ ed.old.asked) }
{
    let n = ed.aside - 1;
    ed.aside = n;
    order[n] as usize
}

// Requests the tree in hand.
pub fn ask(ed: &mut Record, slot: usize)
    ensures ordered { (order : List ℕ) → Between ed.old order (slot ∷ []) → Ordered ed.new order }
    ensures editor { (w : ℕ) (plens paths tlens trees order : List ℕ) → Between ed.old order (slot ∷ []) →
        editor_of w ed.new plens paths tlens trees order ≡ writing_of ed.old.«open» (held_at w plens paths tlens trees slot) (going_of w ed.old plens paths tlens trees order) }
    ensures same { SameSlots ed.old ed.new × (ed.new.hidden ≡ ed.old.hidden) × (ed.new.«open» ≡ ed.old.«open») × (ed.new.aside ≡ ed.old.aside) × (ed.new.stacked ≡ ed.old.stacked) × (ed.new.asked ≡ slot) }
{
    ed.asked = slot;
}

// Drops the tree in hand.
pub fn drop_taken(s: &mut Store<'_>, width: usize, slot: usize)
    requires { LaidIn width s.old × (width ≤ 64) × ((order : List ℕ) × Between s.old.ed order (slot ∷ [])) }
    ensures going { (order : List ℕ) → Between s.old.ed order (slot ∷ []) → going_in width s.new order
        ≡ going_in width s.old order }
    ensures between { (order : List ℕ) → Between s.old.ed order (slot ∷ []) → Between s.new.ed order [] }
    ensures laid { LaidIn width s.new }
    ensures others { ((k : ℕ) → (k ≡ slot → ⊥) → SameTree s.old.plens.now s.old.paths.now s.old.tlens.now s.old.trees.now s.new.plens.now s.new.paths.now s.new.tlens.now s.new.trees.now k)
        × (digits 64 s.new.ed.free ≡ set (digits 64 s.old.ed.free) slot 1) × (digits 64 s.new.ed.hidden ≡ digits 64 s.old.ed.hidden) }
    ensures same { SameWrite s.old.ed s.new.ed }
    ensures lent { SameLent s.old s.new }
{
    s.drop_slot(width, slot);
}

// The write is over: the tree in hand, the only one that is taken, is cached again.
pub fn close(ed: &mut Record)
    ensures cache { (w : ℕ) (plens paths tlens trees order : List ℕ) (slot : ℕ) → Laid w ed.old plens paths tlens trees → Between ed.old order (slot ∷ []) → ed.old.aside ≡ 0 → ed.old.stacked ≡ 0 →
        editor_of w ed.new plens paths tlens trees order ≡ record { cached = put at (held_at w plens paths tlens trees slot) (cached_of w ed.old plens paths tlens trees); writing = none } }
    ensures ordered { (order : List ℕ) → length order ≡ 64 → Ordered ed.new order }
    ensures same { SameSlots ed.old ed.new × (ed.new.«open» ≡ 0) }
{
    *ed = Record {
        hidden: ed.free,
        open: 0,
        aside: 0,
        stacked: 0,
        asked: 0,
        ..*ed
    };
}

// Whether the slot k is used and one of those in a map.
fn goes(free: u64, gone: u64, k: usize) -> bool
    requires { k < 64 }
    ensures { result ≡ (not (eqb (get_or (digits 64 free) k 0) 1) && eqb (get_or (digits 64 gone) k 0) 1) }
{
    !store_runs::bits::is_set(free, k) && store_runs::bits::is_set(gone, k)
}

// Drops the tree of a slot if the slot is used and one of those in a map.
fn drop_one(s: &mut Store<'_>, width: usize, gone: u64, k: usize)
    requires { LaidIn width s.old × (width ≤ 64) × (k < 64) }
    ensures free { digits 64 s.new.ed.free ≡ mark_if (get_or (digits 64 gone) k 0) (digits 64 s.old.ed.free) k }
    ensures others { (j : ℕ) → get_or (digits 64 gone) j 0 ≡ 0 → SameTree s.old.plens.now s.old.paths.now s.old.tlens.now s.old.trees.now s.new.plens.now s.new.paths.now s.new.tlens.now s.new.trees.now j }
    ensures laid { LaidIn width s.new }
    ensures same { SameWrite s.old.ed s.new.ed }
    ensures lent { SameLent s.old s.new }
{
    if goes(s.ed.free, gone, k) {
        s.drop_slot(width, k);
    }
}

// Drops the tree of each used slot in a map.
fn drop_each(s: &mut Store<'_>, width: usize, gone: u64)
    requires { LaidIn width s.old × (width ≤ 64) }
    ensures free { digits 64 s.new.ed.free ≡ joined (digits 64 gone) (digits 64 s.old.ed.free) }
    ensures others { (k : ℕ) → get_or (digits 64 gone) k 0 ≡ 0 → SameTree s.old.plens.now s.old.paths.now s.old.tlens.now s.old.trees.now s.new.plens.now s.new.paths.now s.new.tlens.now s.new.trees.now k }
    ensures laid { LaidIn width s.new }
    ensures same { SameWrite s.old.ed s.new.ed }
    ensures lent { SameLent s.old s.new }
{
    for k in 0..SLOTS {
        drop_one(s, width, gone, k);
    }
}

// Drops every taken tree but one, which is in hand then.
pub fn drop_others(s: &mut Store<'_>, width: usize, start: usize)
    requires { LaidIn width s.old × (width ≤ 64)
        × ((order : List ℕ) × (hand : List ℕ) × Between s.old.ed order hand × (has start (all_taken s.old.ed order hand) ≡ true)) }
    ensures cache { cached_in width s.new ≡ cached_in width s.old }
    ensures between { (order : List ℕ) → length order ≡ 64 → Between s.new.ed order (start ∷ []) }
    ensures laid { LaidIn width s.new }
    ensures others { SameTree s.old.plens.now s.old.paths.now s.old.tlens.now s.old.trees.now s.new.plens.now s.new.paths.now s.new.tlens.now s.new.trees.now start }
    ensures same { (s.new.ed.hidden ≡ s.old.ed.hidden) × (s.new.ed.«open» ≡ s.old.ed.«open») × (s.new.ed.aside ≡ 0) × (s.new.ed.stacked ≡ 0) }
    ensures lent { SameLent s.old s.new }
{
    let map = s.ed.hidden;
    let gone = store_runs::bits::clear(map, start);
    drop_each(s, width, gone);
    s.ed.hidden = map;
    s.ed.aside = 0;
    s.ed.stacked = 0;
}

// Every run but the run k becomes empty; gives its length.
fn keep_run(lens: &mut [u64], bytes: &mut [u8], used: usize, k: usize) -> usize
    requires { Sound lens.old bytes.old used × (length lens.old ≡ 64) × (k < 64) }
    ensures view { cut lens.new bytes.new ≡ set (replicate 64 []) k (get_or (cut lens.old bytes.old) k []) }
    ensures sound { Sound lens.new bytes.new result × (result ≡ get_or lens.old k 0) }
{
    let a = store_runs::runs::start(lens, k);
    let n = lens[k] as usize;
    store_runs::moves::remove(bytes, 0, a + n, a);
    store_runs::runs::clear(lens);
    lens[k] = n as u64;
    n
}

// Drops every tree but the one in a slot, which is cached then, and the write.
pub fn keep_only(s: &mut Store<'_>, width: usize, slot: usize)
    requires { LaidIn width s.old × (width ≤ 64) × Used s.old.ed slot }
    ensures editor { (order : List ℕ) → editor_of width s.new.ed s.new.plens.now s.new.paths.now s.new.tlens.now s.new.trees.now order ≡ record { cached = held_in_slot width s.old slot ∷ []; writing = none } }
    ensures ordered { (order : List ℕ) → length order ≡ 64 → Ordered s.new.ed order }
    ensures laid { LaidIn width s.new }
    ensures others { Used s.new.ed slot × SameTree s.old.plens.now s.old.paths.now s.old.tlens.now s.old.trees.now s.new.plens.now s.new.paths.now s.new.tlens.now s.new.trees.now slot }
    ensures same { (s.new.ed.hidden ≡ s.new.ed.free) × (s.new.ed.«open» ≡ 0) }
    ensures lent { SameLent s.old s.new }
{
    let tree = Tree {
        bytes: s.view().tree_in(slot),
        width,
    };
    let es = tree.count();
    let p = keep_run(&mut *s.plens, &mut *s.paths, s.ed.paths, slot);
    let t = keep_run(&mut *s.tlens, &mut *s.trees, s.ed.trees, slot);
    let ns = t - es * (2 + width);
    let f = store_runs::bits::clear(u64::MAX, slot);
    s.ed = Record {
        free: f,
        hidden: f,
        paths: p,
        trees: t,
        entries: es,
        names: ns,
        open: 0,
        aside: 0,
        stacked: 0,
        asked: 0,
    };
}
