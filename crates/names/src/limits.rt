// The limits of an editor, and the lengths that they give.

// Trees, cached and taken, and so the slots of a store.
pub const SLOTS: usize = 64;

// Bytes of all paths.
pub const PATH_BYTES: usize = 8192;

// Entries, and bytes of names, of all trees.
pub const ENTRIES: usize = 1024;

pub const NAME_BYTES: usize = 16384;

// The bytes of an id, and of all trees with such ids: 1,024 entries of 2 bytes and an id, and the names.
pub const WIDTH: usize = 20;

pub const TREE_BYTES: usize = 38912;

// The bytes of a name, of a path, and of a path with a slash and a name behind it.
pub const NAME: usize = 255;

pub const PATH: usize = 1024;

pub const FULL: usize = 1280;
