// A cached tree loses its entries whose ids are null.
ghost use Rattle.std.specs.Prelude.{◌≡◌, List, [], ℕ, ◌≤◌, ◌<◌, length, take, get_or};
ghost use Rattle.model.specs.Bytes.{same};
ghost use Rattle.model.specs.Tree.{null, without_id};
ghost use Rattle.names_compact.specs.Compact.{packed_all, unpack, Run};
ghost use Rattle.store_runs.specs.Runs.{cut, with_run, Sound};
ghost use Rattle.store_slots.specs.View.{Used};
ghost use Rattle.store_slots.specs.Stores.{LaidIn, tree_in_slot};
ghost use Rattle.store_entries.specs.Entries.{EditedIn};
ghost use Rattle.store_trees.specs.Trees.{Fewer};

use store_slots::Store;

// The bytes then in use, and how many entries are gone.
#[derive(Clone, Copy)]
pub struct Left {
    pub used: usize,
    pub gone: usize,
}

// Whether an id is null.
pub fn is_null(id: &[u8]) -> bool
    ensures { result ≡ same id.now (null (length id.now)) }
{
    id.iter().all(|b| *b == 0)
}

// Moves the entries whose ids are not null to the front of a run, and says what is left.
fn close_up(run: &mut [u8], width: usize) -> Left
    requires { Run width run.old × (width ≤ 64) }
    ensures front { take result.used run.new ≡ packed_all (without_id (null width) (unpack width run.old)) }
    ensures counts { Fewer width run.old (length run.old) result }
{
    let mut at = 0;
    let mut used = 0;
    let mut gone = 0;
    // Stays: the run is written while it is read, so no iterator over its entries can hold it.
    while at < run.len() {
        let m = 2 + width + run[at + 1] as usize;
        let end = at + m;
        if is_null(names::part::between(run, at + 2, width)) {
            gone += 1;
        } else {
            store_runs::moves::shift(run, at, end, used);
            used += m;
        }
        at = end;
    }
    Left { used, gone }
}

// Takes the null entries out of the run k, and says what is left.
fn close_run(lens: &mut [u64], bytes: &mut [u8], used: usize, k: usize, width: usize) -> Left
    requires { Sound lens.old bytes.old used × (k < length lens.old) × Run width (get_or (cut lens.old bytes.old) k []) × (width ≤ 64) }
    ensures view { cut lens.new bytes.new ≡ with_run k (λ (l : List ℕ). packed_all (without_id (null width) (unpack width l))) (cut lens.old bytes.old) }
    ensures sound { Sound lens.new bytes.new result.used }
    ensures counts { Fewer width (get_or (cut lens.old bytes.old) k []) used result }
{
    let a = store_runs::runs::start(lens, k);
    let n = lens[k] as usize;
    let e = a + n;
    let left = close_up(&mut bytes[a..e], width);
    Left {
        used: store_runs::runs::remove(lens, bytes, used, k, left.used, n - left.used),
        gone: left.gone,
    }
}

// Takes the entries whose ids are null out of a slot's tree.
pub fn drop_null(s: &mut Store<'_>, width: usize, slot: usize)
    requires { LaidIn width s.old × (width ≤ 64) × Used s.old.ed slot }
    ensures { EditedIn width s.old slot (without_id (null width) (tree_in_slot width s.old slot)) s.new }
{
    let r = s.ed;
    let left = close_run(&mut *s.tlens, &mut *s.trees, r.trees, slot, width);
    let bytes = r.trees - left.used - left.gone * (2 + width);
    s.ed.trees = left.used;
    s.ed.entries = r.entries - left.gone;
    s.ed.names = r.names - bytes;
}
