// A record and the lent slices of a store, with ids of one width.
ghost use Rattle.std.specs.Prelude.{◌≡◌, ◌≤◌, length};
ghost use Rattle.store_slots.specs.View.{tree_room};

use store_slots::Record;

// The record and the slices of the trees, which are as long as those of a store.
#[derive(Clone, Copy)]
pub struct Shelf<'a> {
    pub record: Record,
    pub plens: &'a [u64],
    pub paths: &'a [u8],
    pub tlens: &'a [u64],
    pub trees: &'a [u8],
    pub width: usize,
    ghost plens_64: { length plens.now ≡ 64 },
    ghost paths_room: { length paths.now ≡ 8192 },
    ghost tlens_64: { length tlens.now ≡ 64 },
    ghost trees_room: { length trees.now ≡ tree_room width },
}

// The same with the table of a write, and ids of at most 64 bytes. All slices are as long as those of a store.
#[derive(Clone, Copy)]
pub struct Lent<'a> {
    pub record: Record,
    pub plens: &'a [u64],
    pub paths: &'a [u8],
    pub tlens: &'a [u64],
    pub trees: &'a [u8],
    pub order: &'a [u64],
    pub width: usize,
    ghost plens_64: { length plens.now ≡ 64 },
    ghost paths_room: { length paths.now ≡ 8192 },
    ghost tlens_64: { length tlens.now ≡ 64 },
    ghost trees_room: { length trees.now ≡ tree_room width },
    ghost order_64: { length order.now ≡ 64 },
    ghost narrow: { width ≤ 64 },
}
