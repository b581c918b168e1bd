// The raw form of a cached tree.
ghost use Rattle.std.specs.Prelude.{◌≡◌, ◌≤◌, length};
ghost use Rattle.model.specs.Raw.{raw_tree};
ghost use Rattle.names.specs.Splice.{splice};
ghost use Rattle.store_slots.specs.View.{tree_of};
ghost use Rattle.store_trees.specs.Trees.{Readable};

use names_compact::compact::Tree;
use store_slots::View;

// How long the raw form of a slot's tree is.
pub fn raw_len_of(v: View<'_>, width: usize, slot: usize) -> usize
    requires { Readable width v.ed v.tlens.now v.trees.now slot }
    ensures { result ≡ length (raw_tree (tree_of width v.entry.tlens.now v.entry.trees.now slot)) }
{
    let tree = Tree {
        bytes: v.tree_in(slot),
        width,
    };
    tree.raw_len()
}

// Writes the raw form of a slot's tree to the front of out, and says how long it is.
pub fn put_raw(v: View<'_>, width: usize, slot: usize, out: &mut [u8]) -> usize
    requires { Readable width v.ed v.tlens.now v.trees.now slot × (length (raw_tree (tree_of width v.tlens.now v.trees.now slot)) ≤ length out.old) }
    ensures value { result ≡ length (raw_tree (tree_of width v.entry.tlens.now v.entry.trees.now slot)) }
    ensures out_after { out.new ≡ splice out.old 0 (raw_tree (tree_of width v.entry.tlens.now v.entry.trees.now slot)) }
{
    let tree = Tree {
        bytes: v.tree_in(slot),
        width,
    };
    tree.put_raw(out)
}
