// The object table: ids end to end, one end offset for each object, raw trees end to end.
ghost use Rattle.std.specs.Prelude.{◌≡◌, true};
ghost use Rattle.model.specs.Table.{ends_from, good_table, looked_up};
ghost use Rattle.editor_terms.specs.Ids.{id_bytes};
ghost use Rattle.editor_terms.specs.Objects.{table_of, raw_as};

use crate::id::Id;
use names::limits::WIDTH;

// Whether the offsets do not fall, nor pass the end.
fn ends_ok(ends: &[u32], size: usize) -> bool
    ensures { result ≡ ends_from 0 size ends.now }
{
    let mut from = 0;
    for &end in ends {
        let end = end as usize;
        if end < from || size < end {
            return false;
        }
        from = end;
    }
    true
}

// Whether the slices are a table: an id for each end offset, and offsets that do not fall.
fn is_good(ids: &[u8], ends: &[u32], raws: &[u8]) -> bool
    ensures { result ≡ good_table 20 (table_of ids.now ends.now raws.now) }
{
    ids.len() / WIDTH == ends.len() && ids.len() % WIDTH == 0 && ends_ok(ends, raws.len())
}

// An object table as it is lent.
#[derive(Clone, Copy)]
pub struct Table<'a> {
    pub ids: &'a [u8],
    pub ends: &'a [u32],
    pub raws: &'a [u8],
}

// A table that is one.
#[derive(Clone, Copy)]
pub struct Objects<'a> {
    pub ids: &'a [u8],
    pub ends: &'a [u32],
    pub raws: &'a [u8],
    ghost good: { good_table 20 (table_of ids.now ends.now raws.now) ≡ true },
}

impl<'a> Table<'a> {
    ghost use Rattle.editor_terms.specs.Tables.{ChecksAs};

    // The same table, if it is one.
    pub fn checked(self) -> Option<Objects<'a>>
        ensures { ChecksAs self.entry result }
    {
        let Table { ids, ends, raws } = self;
        if is_good(ids, ends, raws) {
            Some(Objects { ids, ends, raws })
        } else {
            None
        }
    }
}

impl<'a> Objects<'a> {
    ghost use Rattle.editor_terms.specs.Tables.{objects_in};

    // The raw tree of the first object with the id.
    pub fn find(self, id: Id) -> Option<&'a [u8]>
        ensures { looked_up 20 (objects_in self.entry) (id_bytes id) ≡ raw_as result }
    {
        let mut from = 0;
        for (key, &end) in self.ids.chunks_exact(WIDTH).zip(self.ends) {
            let end = end as usize;
            if names::order::same_bytes(key, &id.bytes) {
                return Some(&self.raws[from..end]);
            }
            from = end;
        }
        None
    }
}
