// Trees in compact form, a part at a time.
ghost use Rattle.std.specs.Prelude.{◌≡◌, ◌≤◌, ◌<◌, length, take, drop};
ghost use Rattle.names_compact.specs.Compact.{Run};
ghost use Rattle.tree_id.specs.Parts.{Part};

use names_compact::compact::Tree;

// How many bytes those entries take that come first and whose raw form surely fits 512 bytes: one entry at least.
// Stays: the bytes and the width, and no Tree: tried, and that a byte of a Tree is below 256 was not to be had in the proof.
fn first_part(bytes: &[u8], width: usize) -> usize
    requires { Run width bytes.now × (width ≤ 64) × (0 < length bytes.now) }
    ensures { (0 < result) × (result ≤ length bytes.now) × Part width bytes.now (take result bytes.now) (drop result bytes.now) 512 }
{
    let mut at = 0;
    let mut size = 0;
    // Stays: the iterator over entries is that of a Tree, and these are bytes.
    while at < bytes.len() {
        let n = bytes[at + 1] as usize;
        let more = size + 8 + n + width;
        if 512 < more {
            break;
        }
        size = more;
        at = at + 2 + width + n;
    }
    at
}

// The entries of the first part, and the others.
pub(crate) fn split(tree: Tree<'_>) -> (Tree<'_>, Tree<'_>)
    requires { 0 < length tree.bytes.now }
    ensures some { 0 < length result.0.bytes.now }
    ensures part { Part tree.entry.width tree.entry.bytes.now result.0.bytes.now result.1.bytes.now 512 }
    ensures first_width { result.0.width ≡ tree.entry.width }
    ensures others_width { result.1.width ≡ tree.entry.width }
{
    let width = tree.width;
    let (first, others) = tree.bytes.split_at(first_part(tree.bytes, width));
    (
        Tree {
            bytes: first,
            width,
        },
        Tree {
            bytes: others,
            width,
        },
    )
}
