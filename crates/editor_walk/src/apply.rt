// The second pass of an edit: its steps, each of which fits.
ghost use Rattle.std.specs.Prelude.{◌≡◌, true, false, length};
ghost use Rattle.model.specs.Map.{rising};
ghost use Rattle.model.specs.Tree.{key, good_name, entry_of};
ghost use Rattle.model.specs.Paths.{components, full as fullPath, refused};
ghost use Rattle.model.specs.Formats.{sha1};
ghost use Rattle.model.specs.Walk.{walk as walked};
ghost use Rattle.model.specs.Calls.{settled};
ghost use Rattle.model.specs.Valid.{valid};
ghost use Rattle.names_compact.specs.Compact.{Run, unpack};
ghost use Rattle.store_slots.specs.View.{Used};
ghost use Rattle.store_slots.specs.Stores.{LaidIn, SameLent, path_in_slot, tree_in_slot, view_in};
ghost use Rattle.store_entries.specs.Entries.{EditedIn};
ghost use Rattle.editor_terms.specs.Edits.{as_edit, changed, looks, parts_of, seen_as, wanted_by};
ghost use Rattle.editor_terms.specs.Tables.{objects_in};
ghost use Rattle.editor_walk.specs.Steps.{PutFits, LandFits, Descended, down_for, step_for, Fitting, SteppedAs, WalkedAs, editor_at, SettledAs};
ghost use Rattle.editor_walk.specs.Tasks.{walk_for};

use crate::component::Component;
use crate::land::Landing;
use crate::task::Task;
use editor_terms::edit::{Edit, Seen, Turn};
use editor_terms::refusal::Refusal;
use editor_terms::table::Objects;
use names::limits::WIDTH;
use names::write::Entry;
use std::ops::ControlFlow;
use store_slots::Store;

// What a turn at a name changes in the tree in a slot.
fn apply(s: &mut Store<'_>, name: &[u8], slot: usize, turn: Turn)
    requires { LaidIn 20 s.old × Used s.old.ed slot × (good_name name.now ≡ true) × PutFits turn s.old slot name.now }
    ensures { EditedIn 20 s.old slot (changed turn name.now (tree_in_slot 20 s.old slot)) s.new }
{
    match turn {
        Turn::Cut => store_entries::remove(s, WIDTH, slot, name),
        Turn::Put(kind, id) => {
            let entry = Entry {
                kind,
                name,
                id: &id.bytes,
            };
            store_entries::set(s, WIDTH, slot, entry);
        }
        Turn::Stop(_) | Turn::Down(_) => {}
    }
}

// Goes down to the path below: what is to be cached there is cached.
fn descend(
    s: &mut Store<'_>,
    below: &[u8],
    landing: Landing<'_>,
) -> ControlFlow<Result<(), Refusal>, usize>
    requires { LaidIn 20 s.old × (s.old.ed.hidden ≡ s.old.ed.free) × LandFits s.old below.now landing }
    ensures done { Descended s.old below.now landing.entry result s.new }
    ensures lent { SameLent s.old s.new }
{
    match landing {
        Landing::There(slot) => ControlFlow::Continue(slot),
        Landing::Halt(answer) => ControlFlow::Break(answer),
        Landing::Fresh => ControlFlow::Continue(s.add_empty(WIDTH, below)),
        Landing::Load(raw) => {
            let slot = store_trees::load::load(s, WIDTH, below, raw.bytes, raw.size);
            ControlFlow::Continue(slot)
        }
    }
}

// The step down after a turn.
fn go_down(
    s: &mut Store<'_>,
    task: Task<'_>,
    below: &[u8],
    turn: Turn,
) -> ControlFlow<Result<(), Refusal>, usize>
    requires { LaidIn 20 s.old × (s.old.ed.hidden ≡ s.old.ed.free) × Fitting (down_for task below.now (wanted_by turn) (view_in 20 s.old)) }
    ensures done { SteppedAs s.old.ed (down_for task.entry below.now (wanted_by turn) (view_in 20 s.old)) below.now result s.new }
    ensures lent { SameLent s.old s.new }
{
    let wanted = turn.wanted();
    let leaf = task.edit.is_leaf_removal();
    let landing = crate::land::land(s.view(), task.table, below, wanted, leaf);
    descend(s, below, landing)
}

// The entry of a name in the tree at hand, where the edit's turn depends on it: an upsert's last does not.
fn seen_for(tree: &[u8], name: &[u8], edit: Edit, last: bool) -> Option<Seen>
    requires { Run 20 tree.now × (rising key (unpack 20 tree.now) ≡ true) }
    ensures { looks edit «last» ≡ true → seen_as result ≡ parts_of (entry_of name.now (unpack 20 tree.now)) }
{
    match edit {
        Edit::Upsert(_, _) if last => None,
        _ => crate::seen::seen_in(tree, name, false),
    }
}

// One step: the edit at a component, in the tree in a slot. It ends the walk with an answer, or the walk goes on in a slot.
fn step(
    s: &mut Store<'_>,
    task: Task<'_>,
    here: Component<'_>,
    slot: usize,
) -> ControlFlow<Result<(), Refusal>, usize>
    requires { LaidIn 20 s.old × (s.old.ed.hidden ≡ s.old.ed.free) × Used s.old.ed slot
        × ((length here.name.now ≡ 0 → ⊥) → good_name here.name.now ≡ true)
        × Fitting (step_for task here.last (path_in_slot s.old slot) here.below.now here.name.now (view_in 20 s.old)) }
    ensures done { SteppedAs s.old.ed (step_for task.entry here.entry.last (path_in_slot s.old slot) here.entry.below.now here.entry.name.now (view_in 20 s.old)) here.entry.below.now result s.new }
    ensures lent { SameLent s.old s.new }
{
    if here.name.len() == 0 {
        return ControlFlow::Break(Err(Refusal::EmptyComponent));
    }
    let seen = seen_for(s.view().tree_in(slot), here.name, task.edit, here.last);
    let turn = task.edit.turn(here.last, seen);
    apply(s, here.name, slot, turn);
    if !turn.goes_down(here.last, task.opening) {
        return ControlFlow::Break(turn.answer());
    }
    go_down(s, task, here.below, turn)
}

// The walk of an edit whose steps each fit, from the tree in a slot; `full` is that tree's path with the path.
pub fn walk(
    s: &mut Store<'_>,
    task: Task<'_>,
    full: &[u8],
    path: &[u8],
    slot: usize,
) -> Result<(), Refusal>
    requires { LaidIn 20 s.old × (s.old.ed.hidden ≡ s.old.ed.free) × Used s.old.ed slot
        × (full.now ≡ fullPath (path_in_slot s.old slot) path.now) × (refused (path_in_slot s.old slot) path.now ≡ false)
        × ((walk_for task (components path.now) (path_in_slot s.old slot) (view_in 20 s.old)).kept ≡ true) }
    ensures done { WalkedAs s.old.ed (walk_for task.entry (components path.now) (path_in_slot s.old slot) (view_in 20 s.old)) result s.new }
    ensures lent { SameLent s.old s.new }
{
    if path.len() == 0 {
        return Ok(());
    }
    let mut p = path;
    let mut at = slot;
    loop {
        let here = crate::component::first(full, p);
        match step(s, task, here, at) {
            ControlFlow::Break(answer) => {
                return answer;
            }
            ControlFlow::Continue(next) => {
                at = next;
            }
        }
        if here.last {
            return Ok(());
        }
        p = here.rest;
    }
}

// Both passes: the walk of an edit, if each of its steps keeps the limits; else nothing is changed.
pub fn settle(
    s: &mut Store<'_>,
    table: Objects<'_>,
    full: &[u8],
    path: &[u8],
    edit: Edit,
    opening: bool,
    slot: usize,
) -> Result<(), Refusal>
    requires { LaidIn 20 s.old × (s.old.ed.hidden ≡ s.old.ed.free) × Used s.old.ed slot
        × (full.now ≡ fullPath (path_in_slot s.old slot) path.now) × (refused (path_in_slot s.old slot) path.now ≡ false)
        × (valid sha1 (editor_at (view_in 20 s.old)) ≡ true) }
    ensures done { SettledAs s.old
        (settled (editor_at (view_in 20 s.old)) (walked sha1 (objects_in table.entry) (as_edit edit) opening (components path.now) (path_in_slot s.old slot) (view_in 20 s.old)))
        result s.new }
    ensures lent { SameLent s.old s.new }
{
    let task = Task {
        table,
        edit,
        opening,
    };
    let measured = crate::measure::measure(s.view(), task, full, path, slot);
    let _ = measured?;
    walk(s, task, full, path, slot)
}
