// Lookups in a lent store.
ghost use Rattle.std.specs.Prelude.{◌≡◌, List, ℕ};
ghost use Rattle.model.specs.Paths.{base};
ghost use Rattle.model.specs.Lookup as model;
ghost use Rattle.store_slots.specs.Stores.{LaidSeen};
ghost use Rattle.editor_walk.specs.Lookups.{looked_as};
ghost use Rattle.editor.specs.Lent.{lent_seen, editor_seen};
ghost use Rattle.editor.specs.Looks.{Looks};

use editor_terms::edit::Seen;
use editor_terms::refusal::Refusal;
use names::limits::{FULL, PATH_BYTES, SLOTS, TREE_BYTES};
use store_slots::View;

// The entry at a path below a prefix, over slices as long as a store, which hold an editor.
fn look_held(v: View<'_>, prefix: &[u8], path: &[u8]) -> Result<Option<Seen>, Refusal>
    requires { LaidSeen 20 v × (v.ed.«open» ≡ 0 → v.ed.hidden ≡ v.ed.free) }
    ensures { (order : List ℕ) → looked_as (base path.now) result
        ≡ model.looked prefix.now path.now (editor_seen v.entry order) }
{
    if v.ed.open != 0 {
        return Err(Refusal::WriteOpen);
    }
    let slot = crate::ready::slot_for(v, prefix, path)?;
    let mut buf = [0u8; FULL];
    let n = names::full::put_full(&mut buf, prefix, path);
    Ok(editor_walk::look::look(v, &buf[..n], path, slot))
}

// The entry at a path below a prefix.
pub fn get(v: View<'_>, order: &[u64], prefix: &[u8], path: &[u8]) -> Result<Option<Seen>, Refusal>
    ensures { Looks prefix.now path.now (lent_seen v.entry order.now) (looked_as (base path.now) result) }
{
    if !store_check::holds::holds(v, order) {
        return Err(Refusal::StoreDamaged);
    }
    let fronts = View {
        ed: v.ed,
        plens: &v.plens[..SLOTS],
        paths: &v.paths[..PATH_BYTES],
        tlens: &v.tlens[..SLOTS],
        trees: &v.trees[..TREE_BYTES],
    };
    look_held(fronts, prefix, path)
}
