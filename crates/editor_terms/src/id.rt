// Ids of 20 bytes.
ghost use Rattle.std.specs.Prelude.{◌≡◌, ◌+◌, ◌≤◌, length, take, drop};
ghost use Rattle.model.specs.Bytes.{same as sameBytes};
ghost use Rattle.model.specs.Formats.{sha1};
ghost use Rattle.editor_terms.specs.Ids.{id_bytes};

use names::limits::WIDTH;

#[derive(Clone, Copy, PartialEq, Eq)]
pub struct Id {
    pub bytes: [u8; WIDTH],
}

impl Id {
    // The null id.
    pub const NULL: Id = Id { bytes: [0; WIDTH] };

    // The id that Git publishes for the empty tree.
    pub const EMPTY_TREE: Id = Id {
        bytes: [
            0x4b, 0x82, 0x5d, 0xc6, 0x42, 0xcb, 0x6e, 0xb9, 0xa0, 0x60, 0xe5, 0x4b, 0xf8, 0xd6,
            0x92, 0x88, 0xfb, 0xee, 0x49, 0x04,
        ],
    };

    // Whether it is the empty tree's.
    pub fn is_empty_tree(self) -> bool
        ensures { result ≡ sameBytes (id_bytes self) sha1.empty_id }
    {
        self == Id::EMPTY_TREE
    }
}

// The id that stands at a place.
pub fn id_at(s: &[u8], at: usize) -> Id
    requires { at + 20 ≤ length s.now }
    ensures { id_bytes result ≡ take 20 (drop at s.now) }
{
    let mut bytes = [0; WIDTH];
    bytes.copy_from_slice(&s[at..at + WIDTH]);
    Id { bytes }
}
