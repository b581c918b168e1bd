// Edits of the tree in a slot.
#![tactic(auto)]

ghost use Rattle.std.specs.Prelude.{◌≡◌, true, Err, ◌+◌, ◌≤◌, ◌<◌, length, get_or};
ghost use Rattle.std.proofs.Math.Option.{none};
ghost use Rattle.model.specs.Bytes.{Bytes};
ghost use Rattle.model.specs.Map.{find, put, del};
ghost use Rattle.model.specs.Tree.{is_tree, as_kind, key, good_name, without, with_entry};
ghost use Rattle.model.specs.Search.{searched};
ghost use Rattle.model.specs.Editor.{at, fits};
ghost use Rattle.names.specs.Answers.{as_mode, entry};
ghost use Rattle.names_compact.specs.Compact.{packed, unpack, Tells};
ghost use Rattle.names.specs.Splice.{splice};
ghost use Rattle.store_runs.specs.Runs.{cut, with_run, run_of, Sound};
ghost use Rattle.store_slots.specs.View.{Used};
ghost use Rattle.store_slots.specs.Stores.{LaidIn, SameKeys, SameLent, tree_in_slot};
ghost use Rattle.store_entries.specs.Entries.{Fresh, EditedIn, FitsWith, written};

use names::order::Key;
use names::write::Entry;
use names_compact::compact::{Place, Tree};
use store_slots::Store;

// Removes the entry of a key, if there is one.
pub fn remove_key(s: &mut Store<'_>, width: usize, slot: usize, sought: Key<'_>)
    requires { LaidIn width s.old × (width ≤ 64) × Used s.old.ed slot }
    ensures { EditedIn width s.old slot (del key (as_kind sought.entry.tree sought.entry.name.now) (tree_in_slot width s.old slot)) s.new }
{
    let tree = Tree {
        bytes: s.view().tree_in(slot),
        width,
    };
    if let Ok(place) = tree.search(sought) {
        let n = tree.name_at(place.at, place.index).len();
        let used = s.ed.trees;
        let left = s.ed.entries - 1;
        let names = s.ed.names - n;
        s.ed.trees = store_runs::runs::remove(
            &mut *s.tlens,
            &mut *s.trees,
            used,
            slot,
            place.at,
            2 + width + n,
        );
        s.ed.entries = left;
        s.ed.names = names;
    }
}

// Removes the entry of a name.
pub fn remove(s: &mut Store<'_>, width: usize, slot: usize, name: &[u8])
    requires { LaidIn width s.old × (width ≤ 64) × Used s.old.ed slot }
    ensures { EditedIn width s.old slot (without name.now (tree_in_slot width s.old slot)) s.new }
{
    remove_key(s, width, slot, Key { name, tree: true });
    remove_key(s, width, slot, Key { name, tree: false });
}

// Puts an entry in, of whose name the tree has none, at the place that the search of its key gave.
fn insert_at(s: &mut Store<'_>, width: usize, slot: usize, place: Place, given: Entry<'_>)
    requires { LaidIn width s.old × (width ≤ 64) × Used s.old.ed slot × (length given.id.now ≡ width) × (good_name given.name.now ≡ true)
        × Fresh given.name.now (tree_in_slot width s.old slot)
        × FitsWith width s.old slot (put key (written given) (tree_in_slot width s.old slot))
        × Tells width (run_of s.old.tlens.now s.old.trees.now slot) (searched key (as_kind (is_tree (as_mode given.kind)) given.name.now) (unpack width (run_of s.old.tlens.now s.old.trees.now slot))) (Err place) }
    ensures { EditedIn width s.old slot (put key (written given.entry) (tree_in_slot width s.old slot)) s.new }
{
    let mut buf = [0u8; 321];
    let n = names_compact::compact::put_entry(&mut buf, given);
    let used = s.ed.trees;
    s.ed.trees = store_runs::runs::insert(
        &mut *s.tlens,
        &mut *s.trees,
        used,
        slot,
        place.at,
        &buf[..n],
    );
    s.ed.entries += 1;
    s.ed.names += given.name.len();
}

// Puts an entry in, of whose name the tree has none.
pub fn insert_key(s: &mut Store<'_>, width: usize, slot: usize, given: Entry<'_>)
    requires { LaidIn width s.old × (width ≤ 64) × Used s.old.ed slot × (length given.id.now ≡ width) × (good_name given.name.now ≡ true)
        × Fresh given.name.now (tree_in_slot width s.old slot)
        × FitsWith width s.old slot (put key (written given) (tree_in_slot width s.old slot)) }
    ensures { EditedIn width s.old slot (put key (written given.entry) (tree_in_slot width s.old slot)) s.new }
{
    let Err(place) = search_for(s, width, slot, given) else {
        unreachable!();
    };
    insert_at(s, width, slot, place, given);
}

// Writes an entry over as many bytes of a slot's run.
fn rewrite(s: &mut Store<'_>, slot: usize, at: usize, given: Entry<'_>)
    requires { Sound s.old.tlens.now s.old.trees.now s.old.ed.trees × (slot < length s.old.tlens.now) × (at + length (packed (written given)) ≤ get_or s.old.tlens.now slot 0) × (length given.name.now ≤ 255) }
    ensures view { cut s.new.tlens.now s.new.trees.now ≡ with_run slot (λ (l : Bytes). splice l at (packed (written given.entry))) (cut s.old.tlens.now s.old.trees.now) }
    ensures others { (s.new.ed ≡ s.old.ed) × (s.new.tlens.now ≡ s.old.tlens.now) × SameKeys s.old s.new × (length s.new.trees.now ≡ length s.old.trees.now) }
    ensures lent { SameLent s.old s.new }
{
    let a = store_runs::runs::start(s.view().tlens, slot) + at;
    names_compact::compact::put_at(&mut *s.trees, a, given);
}

// Puts an entry in, in place of the one of its name and of another kind of key, if there is one.
fn replace(s: &mut Store<'_>, width: usize, slot: usize, given: Entry<'_>)
    requires { LaidIn width s.old × (width ≤ 64) × Used s.old.ed slot × (length given.id.now ≡ width) × (good_name given.name.now ≡ true)
        × (find key (as_kind (is_tree (as_mode given.kind)) given.name.now) (tree_in_slot width s.old slot) ≡ none)
        × FitsWith width s.old slot (with_entry (written given) (tree_in_slot width s.old slot)) }
    ensures { EditedIn width s.old slot (with_entry (written given.entry) (tree_in_slot width s.old slot)) s.new }
{
    let twin = Key {
        name: given.name,
        tree: !given.kind.is_tree(),
    };
    remove_key(s, width, slot, twin);
    insert_key(s, width, slot, given);
}

// Puts an entry in, of whose key the tree has none, at the place that the search of its key gave, unless the one of its name and of another kind of key goes first.
fn add(s: &mut Store<'_>, width: usize, slot: usize, place: Place, given: Entry<'_>)
    requires { LaidIn width s.old × (width ≤ 64) × Used s.old.ed slot × (length given.id.now ≡ width) × (good_name given.name.now ≡ true)
        × (find key (as_kind (is_tree (as_mode given.kind)) given.name.now) (tree_in_slot width s.old slot) ≡ none)
        × FitsWith width s.old slot (with_entry (written given) (tree_in_slot width s.old slot))
        × Tells width (run_of s.old.tlens.now s.old.trees.now slot) (searched key (as_kind (is_tree (as_mode given.kind)) given.name.now) (unpack width (run_of s.old.tlens.now s.old.trees.now slot))) (Err place) }
    ensures { EditedIn width s.old slot (with_entry (written given.entry) (tree_in_slot width s.old slot)) s.new }
{
    let tree = Tree {
        bytes: s.view().tree_in(slot),
        width,
    };
    let key = Key {
        name: given.name,
        tree: given.kind.is_tree(),
    };
    let twin = tree.search_twin(key, place);
    if twin.is_ok() {
        replace(s, width, slot, given);
    } else {
        insert_at(s, width, slot, place, given);
    }
}

// Searches the key of an entry in the tree in a slot.
fn search_for(s: &Store<'_>, width: usize, slot: usize, given: Entry<'_>) -> Result<Place, Place>
    requires { LaidIn width s.now × (width ≤ 64) × Used s.now.ed slot }
    ensures { Tells width (run_of s.now.tlens.now s.now.trees.now slot) (searched key (as_kind (is_tree (as_mode given.entry.kind)) given.entry.name.now) (unpack width (run_of s.now.tlens.now s.now.trees.now slot))) result }
{
    let tree = Tree {
        bytes: s.view().tree_in(slot),
        width,
    };
    let wanted = Key {
        name: given.name,
        tree: given.kind.is_tree(),
    };
    tree.search(wanted)
}

// Sets an entry: in place of the one of its name, in order, or as a new one.
pub fn set(s: &mut Store<'_>, width: usize, slot: usize, given: Entry<'_>)
    requires { LaidIn width s.old × (width ≤ 64) × Used s.old.ed slot × (length given.id.now ≡ width) × (good_name given.name.now ≡ true)
        × FitsWith width s.old slot (with_entry (written given) (tree_in_slot width s.old slot)) }
    ensures { EditedIn width s.old slot (with_entry (written given.entry) (tree_in_slot width s.old slot)) s.new }
{
    match search_for(s, width, slot, given) {
        Ok(place) => rewrite(s, slot, place.at, given),
        Err(place) => add(s, width, slot, place, given),
    }
}
