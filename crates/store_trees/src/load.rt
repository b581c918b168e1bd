// A raw tree is cached.
ghost use Rattle.std.specs.Prelude.{◌≡◌, true, [], ◌≤◌, set};
ghost use Rattle.std.proofs.Math.Option.{none, some};
ghost use Rattle.model.specs.Map.{find, put};
ghost use Rattle.model.specs.Raw.{read_tree};
ghost use Rattle.model.specs.Tree.{Tree};
ghost use Rattle.model.specs.Editor.{at, fits};
ghost use Rattle.names.specs.Check.{size_of};
ghost use Rattle.store_runs.specs.Digits.{digits};
ghost use Rattle.store_slots.specs.View.{held_as, Used, SameWrite};
ghost use Rattle.store_slots.specs.Stores.{LaidIn, OtherKeys, OtherTrees, SameLent, path_in_slot, tree_in_slot, view_in};
ghost use Rattle.store_entries.specs.Entries.{EditedIn, FitsWith};

use names::tree::Size;
use store_slots::Store;

// Puts the tree that is read from its raw form, of this size, in the place of a slot's empty tree.
fn fill_slot(s: &mut Store<'_>, width: usize, slot: usize, raw: &[u8], size: Size)
    requires { LaidIn width s.old × (width ≤ 64) × Used s.old.ed slot × (tree_in_slot width s.old slot ≡ [])
        × (size_of (read_tree width raw.now) ≡ some (record { entries = size.entries; bytes = size.name_bytes }))
        × ((t : Tree) → read_tree width raw.now ≡ some t → FitsWith width s.old slot t) }
    ensures edited { (t : Tree) → read_tree width raw.now ≡ some t → EditedIn width s.old slot t s.new }
    ensures lent { SameLent s.old s.new }
{
    let n = size.entries * (2 + width) + size.name_bytes;
    let r = s.ed;
    crate::gap::fill(&mut *s.tlens, &mut *s.trees, r.trees, slot, n, raw, width);
    let bytes = r.names + size.name_bytes;
    s.ed.trees = r.trees + n;
    s.ed.entries = r.entries + size.entries;
    s.ed.names = bytes;
}

// Caches a well-formed raw tree, of this size, under a path that has none, in the first free slot, and gives the slot.
pub fn load(s: &mut Store<'_>, width: usize, path: &[u8], raw: &[u8], size: Size) -> usize
    requires { LaidIn width s.old × (width ≤ 64) × (s.old.ed.hidden ≡ s.old.ed.free)
        × (size_of (read_tree width raw.now) ≡ some (record { entries = size.entries; bytes = size.name_bytes }))
        × (find at path.now (view_in width s.old) ≡ none)
        × ((t : Tree) → read_tree width raw.now ≡ some t → fits (put at (held_as path.now t) (view_in width s.old)) ≡ true) }
    ensures view { (t : Tree) → read_tree width raw.now ≡ some t → view_in width s.new ≡ put at (held_as path.now t) (view_in width s.old) }
    ensures slot { Used s.new.ed result × (path_in_slot s.new result ≡ path.now)
        × ((t : Tree) → read_tree width raw.now ≡ some t → tree_in_slot width s.new result ≡ t) }
    ensures laid { LaidIn width s.new }
    ensures others { OtherKeys s.old result s.new × OtherTrees s.old result s.new × (digits 64 s.new.ed.free ≡ set (digits 64 s.old.ed.free) result 0) }
    ensures same { (s.new.ed.hidden ≡ s.new.ed.free) × SameWrite s.old.ed s.new.ed }
    ensures lent { SameLent s.old s.new }
{
    let slot = s.add_empty(width, path);
    fill_slot(s, width, slot, raw, size);
    slot
}
