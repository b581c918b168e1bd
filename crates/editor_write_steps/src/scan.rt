// The scan of a taken tree: the cached trees under its tree entries are taken off the cache and stacked.
ghost use Rattle.std.specs.Prelude.{◌≡◌, cond, List, [], ◌∷◌, ℕ, ◌≤◌, length, take};
ghost use Rattle.std.proofs.Math.Option.{none};
ghost use Rattle.model.specs.Bytes.{Bytes};
ghost use Rattle.model.specs.Map.{find};
ghost use Rattle.model.specs.Paths.{join};
ghost use Rattle.model.specs.Editor.{at};
ghost use Rattle.names_compact.specs.Compact.{unpack};
ghost use Rattle.store_slots.specs.View.{Laid, path_of, cached_of};
ghost use Rattle.store_slots.specs.Stores.{KeysSound, LaidSeen};
ghost use Rattle.store_taken.specs.Taken.{going_of, Between};
ghost use Rattle.names.specs.Fronts.{lead};
ghost use Rattle.editor_write_steps.specs.Writes.{going_seen, held_seen, kid_on, scanned_on, Stacks};

use names::limits::FULL;
use names_compact::compact::Tree;
use store_slots::{Record, View};

// Takes the cached tree at a path off the cache and stacks it, if the path is a tree entry's and one is cached there.
fn take_kid(v: View<'_>, order: &mut [u64], path: &[u8], is_tree: bool) -> Record
    requires { KeysSound v × (length v.plens.now ≡ 64) × ((hand : List ℕ) × Between v.ed order.old hand) }
    ensures going { (w : ℕ) (tlens trees : List ℕ) → Laid w v.entry.ed v.entry.plens.now v.entry.paths.now tlens trees →
        going_of w result v.entry.plens.now v.entry.paths.now tlens trees order.new
        ≡ kid_on (cond is_tree (find at path.now (cached_of w v.entry.ed v.entry.plens.now v.entry.paths.now tlens trees)) none)
        (going_of w v.entry.ed v.entry.plens.now v.entry.paths.now tlens trees order.old) }
    ensures between { (hand : List ℕ) → Between v.entry.ed order.old hand → Between result order.new hand }
    ensures same { Stacks v.entry.ed result }
{
    let mut ed = v.ed;
    if is_tree {
        if let Some(k) = v.find(path) {
            store_taken::stack(&mut ed, order, k);
        }
    }
    ed
}

// Writes the name of an entry behind the n bytes that the buffer has, and says how long the whole is.
fn put_name(buf: &mut [u8; FULL], n: usize, name: &[u8]) -> usize
    requires { (length name.now ≤ 255) × (n ≤ 1025) }
    ensures { (result ≤ 1280) × (length buf.new ≡ 1280) × ((p : Bytes) → take n buf.old ≡ lead p →
        (take result buf.new ≡ join p name.now) × (take n buf.new ≡ lead p)) }
{
    names::write::put(buf, n, name)
}

// Scans the entries of the tree at a path.
fn scan_entries(v: View<'_>, order: &mut [u64], prefix: &[u8], tree: Tree<'_>) -> Record
    requires { KeysSound v × (length v.plens.now ≡ 64) × ((hand : List ℕ) × Between v.ed order.old hand)
        × (length prefix.now ≤ 1024) }
    ensures going { (w : ℕ) (tlens trees : List ℕ) → Laid w v.entry.ed v.entry.plens.now v.entry.paths.now tlens trees →
        going_of w result v.entry.plens.now v.entry.paths.now tlens trees order.new
        ≡ scanned_on prefix.now (unpack tree.entry.width tree.entry.bytes.now)
        (going_of w v.entry.ed v.entry.plens.now v.entry.paths.now tlens trees order.old) }
    ensures between { (hand : List ℕ) → Between v.entry.ed order.old hand → Between result order.new hand }
    ensures same { Stacks v.entry.ed result }
{
    let mut buf = [0u8; FULL];
    let n = names::full::put_prefix(&mut buf, prefix);
    let mut ed = v.ed;
    for entry in tree.entries() {
        let end = put_name(&mut buf, n, entry.name);
        let now = View { ed, ..v };
        ed = take_kid(now, order, &buf[..end], entry.kind.is_tree());
    }
    ed
}

// Scans the tree in hand.
pub fn scan(v: View<'_>, order: &mut [u64], width: usize, slot: usize) -> Record
    requires { LaidSeen width v × (width ≤ 64) × Between v.ed order.old (slot ∷ []) × (length (path_of v.plens.now v.paths.now slot) ≤ 1024) }
    ensures going { going_seen width result v.entry order.new
        ≡ scanned_on (held_seen width v.entry slot).path (held_seen width v.entry slot).held (going_seen width v.entry.ed v.entry order.old) }
    ensures between { Between result order.new (slot ∷ []) }
    ensures same { Stacks v.entry.ed result }
{
    let tree = Tree {
        bytes: v.tree_in(slot),
        width,
    };
    scan_entries(v, order, v.path_in(slot), tree)
}
