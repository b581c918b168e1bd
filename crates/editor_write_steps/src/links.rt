// The entry of a finished tree in its parent, which is set aside.
ghost use Rattle.std.specs.Prelude.{◌≡◌, true, List, [], ◌∷◌, ℕ, ◌≤◌, ◌<◌, length, take};
ghost use Rattle.model.specs.Paths.{base, dir};
ghost use Rattle.model.specs.Editor.{fits};
ghost use Rattle.store_slots.specs.View.{Used, SameWrite, path_of};
ghost use Rattle.store_slots.specs.Stores.{KeysSound, LaidIn, SameKeys, SameLent, path_in_slot, view_in};
ghost use Rattle.store_taken.specs.Taken.{going_in, Between};
ghost use Rattle.editor_write_steps.specs.Writes.{unlinked_on, linked_on, ChildIn};

use names::limits::NAME;
use names::mode::EntryKind;
use names::write::Entry;
use store_slots::{Store, View};

// The slot of the tree that the tree in a slot lies below.
fn parent_of(v: View<'_>, slot: usize) -> usize
    requires { KeysSound v × (length v.plens.now ≡ 64) × (slot < 64)
        × ((j : ℕ) × Used v.ed j × (path_of v.plens.now v.paths.now j ≡ dir (path_of v.plens.now v.paths.now slot))) }
    ensures { Used v.entry.ed result × (path_of v.entry.plens.now v.entry.paths.now result ≡ dir (path_of v.entry.plens.now v.entry.paths.now slot)) }
{
    let path = names::path::parent(v.path_in(slot));
    v.find_used(path).unwrap_or(slot)
}

// Copies the name of the tree in a slot to the front of a buffer, and says how long it is.
fn copy_name(name: &mut [u8; NAME], v: View<'_>, slot: usize) -> usize
    requires { KeysSound v × (slot < length v.plens.now) × (length (base (path_of v.plens.now v.paths.now slot)) ≤ 255) }
    ensures { (result ≡ length (base (path_of v.entry.plens.now v.entry.paths.now slot)))
        × (take result name.new ≡ base (path_of v.entry.plens.now v.entry.paths.now slot)) }
{
    names::write::put(name, 0, names::path::filename(v.path_in(slot)))
}

// Removes the entry of the tree in hand from its parent.
fn remove_entry(s: &mut Store<'_>, width: usize, slot: usize)
    requires { LaidIn width s.old × (width ≤ 64) × ((order : List ℕ) × ChildIn width s.old order slot) }
    ensures going { (order : List ℕ) → ChildIn width s.old order slot → going_in width s.new order
        ≡ unlinked_on (path_in_slot s.old slot) (going_in width s.old order) }
    ensures between { (order : List ℕ) → ChildIn width s.old order slot → Between s.new.ed order (slot ∷ []) }
    ensures laid { LaidIn width s.new }
    ensures same { SameWrite s.old.ed s.new.ed }
    ensures lent { SameLent s.old s.new }
    ensures keys { SameKeys s.old s.new }
{
    let mut name = [0u8; NAME];
    let v = s.view();
    let n = copy_name(&mut name, v, slot);
    let parent = parent_of(v, slot);
    store_entries::remove(s, width, parent, &name[..n]);
}

// An empty tree's entry in its parent goes, and the tree itself.
pub fn unlink(s: &mut Store<'_>, width: usize, slot: usize)
    requires { LaidIn width s.old × (width ≤ 64) × ((order : List ℕ) × ChildIn width s.old order slot) }
    ensures going { (order : List ℕ) → ChildIn width s.old order slot → going_in width s.new order
        ≡ unlinked_on (path_in_slot s.old slot) (going_in width s.old order) }
    ensures between { (order : List ℕ) → ChildIn width s.old order slot → Between s.new.ed order [] }
    ensures laid { LaidIn width s.new }
    ensures same { SameWrite s.old.ed s.new.ed }
    ensures lent { SameLent s.old s.new }
{
    remove_entry(s, width, slot);
    store_taken::drop_taken(s, width, slot);
}

// Sets the id of the entry of the tree in hand in its parent.
fn set_entry(s: &mut Store<'_>, width: usize, slot: usize, id: &[u8])
    requires { LaidIn width s.old × (width ≤ 64) × ((order : List ℕ) × ChildIn width s.old order slot)
        × (length id.now ≡ width) × (fits (view_in width s.old) ≡ true) }
    ensures going { (order : List ℕ) → ChildIn width s.old order slot → going_in width s.new order
        ≡ linked_on id.now (path_in_slot s.old slot) (going_in width s.old order) }
    ensures between { (order : List ℕ) → ChildIn width s.old order slot → Between s.new.ed order (slot ∷ []) }
    ensures laid { LaidIn width s.new }
    ensures same { SameWrite s.old.ed s.new.ed }
    ensures lent { SameLent s.old s.new }
    ensures keys { SameKeys s.old s.new }
{
    let mut name = [0u8; NAME];
    let v = s.view();
    let n = copy_name(&mut name, v, slot);
    let parent = parent_of(v, slot);
    let entry = Entry {
        kind: EntryKind::Tree,
        name: &name[..n],
        id,
    };
    store_entries::set(s, width, parent, entry);
}

// A finished tree's entry in its parent has this id now, and the tree itself goes.
pub fn link(s: &mut Store<'_>, width: usize, slot: usize, id: &[u8])
    requires { LaidIn width s.old × (width ≤ 64) × ((order : List ℕ) × ChildIn width s.old order slot)
        × (length id.now ≡ width) × (fits (view_in width s.old) ≡ true) }
    ensures going { (order : List ℕ) → ChildIn width s.old order slot → going_in width s.new order
        ≡ linked_on id.now (path_in_slot s.old slot) (going_in width s.old order) }
    ensures between { (order : List ℕ) → ChildIn width s.old order slot → Between s.new.ed order [] }
    ensures laid { LaidIn width s.new }
    ensures same { SameWrite s.old.ed s.new.ed }
    ensures lent { SameLent s.old s.new }
{
    set_entry(s, width, slot, id);
    store_taken::drop_taken(s, width, slot);
}
