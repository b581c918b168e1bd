// Lookups: the entry at a path, from the tree in a slot, going down through cached trees only.
ghost use Rattle.std.specs.Prelude.{◌≡◌, true, false, length, Ok};
ghost use Rattle.model.specs.Bytes.{has};
ghost use Rattle.model.specs.Tree.{well_formed};
ghost use Rattle.model.specs.Paths.{components, base, full as fullPath};
ghost use Rattle.model.specs.Lookup.{look as looked_up};
ghost use Rattle.names_compact.specs.Compact.{unpack, Run};
ghost use Rattle.store_runs.specs.Digits.{digits};
ghost use Rattle.store_runs.specs.Runs.{cut};
ghost use Rattle.store_slots.specs.View.{view_of, Used, path_of};
ghost use Rattle.store_slots.specs.Stores.{KeysSound, LaidSeen};
ghost use Rattle.editor_walk.specs.Lookups.{looked_as, LookStepIs};

use crate::component::Component;
use editor_terms::edit::Seen;
use std::ops::ControlFlow;
use store_slots::View;

// A lookup at one component of the path: it is over, or goes on in a slot.
fn look_in(v: View<'_>, tree: &[u8], here: Component<'_>) -> ControlFlow<Option<Seen>, usize>
    requires { KeysSound v × (length v.plens.now ≡ 64) × Run 20 tree.now × (well_formed 20 (unpack 20 tree.now) ≡ true) × (has 47 here.name.now ≡ false) }
    ensures { LookStepIs (digits 64 v.entry.ed.hidden) (cut v.entry.plens.now v.entry.paths.now) (unpack 20 tree.now) here.entry.below.now here.entry.name.now here.entry.last result }
{
    let Some(seen) = crate::seen::seen_in(tree, here.name, true) else {
        return ControlFlow::Break(None);
    };
    if here.last {
        return ControlFlow::Break(Some(seen));
    }
    if !seen.kind.is_tree() {
        return ControlFlow::Break(None);
    }
    match v.find(here.below) {
        Some(slot) => ControlFlow::Continue(slot),
        None => ControlFlow::Break(None),
    }
}

// The entry at a path below the tree in a slot; `full` is that tree's path with the path. A path of no bytes has none.
pub fn look(v: View<'_>, full: &[u8], path: &[u8], slot: usize) -> Option<Seen>
    requires { LaidSeen 20 v × (v.ed.hidden ≡ v.ed.free) × Used v.ed slot × (full.now ≡ fullPath (path_of v.plens.now v.paths.now slot) path.now) }
    ensures { looked_as (base path.now) (Ok result)
        ≡ looked_up (components path.now) (path_of v.entry.plens.now v.entry.paths.now slot) (view_of 20 v.entry.ed v.entry.plens.now v.entry.paths.now v.entry.tlens.now v.entry.trees.now) }
{
    if path.len() == 0 {
        return None;
    }
    let mut p = path;
    let mut at = slot;
    loop {
        let here = crate::component::first(full, p);
        match look_in(v, v.tree_in(at), here) {
            ControlFlow::Break(found) => {
                return found;
            }
            ControlFlow::Continue(slot_below) => {
                at = slot_below;
            }
        }
        p = here.rest;
    }
}
