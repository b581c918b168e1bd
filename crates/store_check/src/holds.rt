// Whether a record and five lent slices hold an editor: number 13 is for those that do not.
ghost use Rattle.std.specs.Prelude.{◌≡◌};
ghost use Rattle.model.specs.Editor.{Format};
ghost use Rattle.model.specs.Formats.{sha1};
ghost use Rattle.store_slots.specs.View.{Holds};
ghost use Rattle.store_check.specs.Decides.{Decides};
ghost use Rattle.store_check.specs.Stored.{Stored};

use crate::lent::{Lent, Shelf};
use names::limits::{PATH_BYTES, SLOTS, TREE_BYTES, WIDTH};
use store_slots::View;

// Whether slices as long as a store hold an editor with ids of this width.
fn exact(s: Lent<'_>) -> bool
    ensures { (F : Format) → F.width ≡ s.entry.width → Decides (Holds F s.entry.record s.entry.plens.now s.entry.paths.now s.entry.tlens.now s.entry.trees.now s.entry.order.now) result }
{
    let shelf = Shelf {
        record: s.record,
        plens: s.plens,
        paths: s.paths,
        tlens: s.tlens,
        trees: s.trees,
        width: s.width,
    };
    match shelf.laid() {
        Some(laid) => laid.write_ok(s.order),
        None => false,
    }
}

// Whether the record and the slices hold an editor with ids of 20 bytes.
pub fn holds(v: View<'_>, order: &[u64]) -> bool
    ensures { Decides (Stored sha1 v.entry.ed v.entry.plens.now v.entry.paths.now v.entry.tlens.now v.entry.trees.now order.now) result }
{
    let View {
        ed,
        plens,
        paths,
        tlens,
        trees,
    } = v;
    if plens.len() < SLOTS
        || paths.len() < PATH_BYTES
        || tlens.len() < SLOTS
        || trees.len() < TREE_BYTES
        || order.len() < SLOTS
    {
        return false;
    }
    exact(Lent {
        record: ed,
        plens: &plens[..SLOTS],
        paths: &paths[..PATH_BYTES],
        tlens: &tlens[..SLOTS],
        trees: &trees[..TREE_BYTES],
        order: &order[..SLOTS],
        width: WIDTH,
    })
}
