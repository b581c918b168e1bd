// A new root: it alone is cached.
ghost use Rattle.std.specs.Prelude.{◌≡◌, List, ℕ, ◌≤◌, length};
ghost use Rattle.std.proofs.Math.Option.{some};
ghost use Rattle.model.specs.Raw.{read_tree};
ghost use Rattle.model.specs.Calls.{set_root};
ghost use Rattle.model.specs.Formats.{sha1};
ghost use Rattle.names.specs.Check.{size_of};
ghost use Rattle.store_slots.specs.View.{tree_room};
ghost use Rattle.store_slots.specs.Stores.{SameLent};
ghost use Rattle.editor_terms.specs.Answers.{code_number};
ghost use Rattle.store_check.specs.Decides.{Decides};
ghost use Rattle.editor.specs.Lent.{lent, lent_in, Long, Does};
ghost use Rattle.editor.specs.Roots.{RootOnly, RootOnlyIn, Roots, Makes};

use editor_terms::refusal::Refusal;
use names::limits::{ENTRIES, NAME_BYTES, PATH_BYTES, SLOTS, TREE_BYTES, WIDTH};
use names::tree::Size;
use store_slots::{Record, Store, View};

// Caches a well-formed raw tree with so many entries and name bytes as the root, and nothing else, in slices as long as a store.
fn root_only(s: &mut Store<'_>, raw: &[u8], size: Size)
    requires { (length s.old.plens.now ≡ 64) × (length s.old.paths.now ≡ 8192) × (length s.old.tlens.now ≡ 64) × (length s.old.trees.now ≡ tree_room 20)
        × (size_of (read_tree 20 raw.now) ≡ some (record { entries = size.entries; bytes = size.name_bytes })) × (size.entries ≤ 1024) × (size.name_bytes ≤ 16384) }
    ensures done { RootOnlyIn raw.now s.new }
    ensures lent { SameLent s.old s.new }
{
    s.drop_all(WIDTH);
    store_trees::load::load(s, WIDTH, b"", raw, size);
}

// The same in the record and its slices.
// Stays: parts as parameters; of fronts put into a `Store` at once the check made no proof (tried).
fn root_exact(
    ed: &mut Record,
    plens: &mut [u64],
    paths: &mut [u8],
    tlens: &mut [u64],
    trees: &mut [u8],
    raw: &[u8],
    size: Size,
)
    requires { (length plens.old ≡ 64) × (length paths.old ≡ 8192) × (length tlens.old ≡ 64) × (length trees.old ≡ tree_room 20)
        × (size_of (read_tree 20 raw.now) ≡ some (record { entries = size.entries; bytes = size.name_bytes })) × (size.entries ≤ 1024) × (size.name_bytes ≤ 16384) }
    ensures { RootOnly raw.now ed.new plens.new paths.new tlens.new trees.new }
{
    let mut s = Store {
        ed: *ed,
        plens,
        paths,
        tlens,
        trees,
    };
    root_only(&mut s, raw, size);
    *ed = s.ed;
}

// The same in slices that may be longer.
fn root_fronts(
    ed: &mut Record,
    plens: &mut [u64],
    paths: &mut [u8],
    tlens: &mut [u64],
    trees: &mut [u8],
    raw: &[u8],
    size: Size,
)
    requires { (64 ≤ length plens.old) × (8192 ≤ length paths.old) × (64 ≤ length tlens.old) × (38912 ≤ length trees.old)
        × (size_of (read_tree 20 raw.now) ≡ some (record { entries = size.entries; bytes = size.name_bytes })) × (size.entries ≤ 1024) × (size.name_bytes ≤ 16384) }
    ensures { (order : List ℕ) → 64 ≤ length order
        → Roots raw.now (lent ed.old plens.old paths.old tlens.old trees.old order) 0 (lent ed.new plens.new paths.new tlens.new trees.new order) }
{
    root_exact(
        ed,
        &mut plens[..SLOTS],
        &mut paths[..PATH_BYTES],
        &mut tlens[..SLOTS],
        &mut trees[..TREE_BYTES],
        raw,
        size,
    );
}

// A new root in slices that are long enough: 12, then 5.
fn rooted(s: &mut Store<'_>, raw: &[u8]) -> Result<(), Refusal>
    requires { (64 ≤ length s.old.plens.now) × (8192 ≤ length s.old.paths.now) × (64 ≤ length s.old.tlens.now) × (38912 ≤ length s.old.trees.now) }
    ensures done { (order : List ℕ) → 64 ≤ length order
        → Roots raw.now (lent_in s.old order) (code_number result) (lent_in s.new order) }
    ensures lent { SameLent s.old s.new }
{
    let size = names::tree::well_formed(raw, WIDTH).ok_or(Refusal::BadRoot)?;
    if ENTRIES < size.entries || NAME_BYTES < size.name_bytes {
        return Err(Refusal::NoRoom);
    }
    root_fronts(
        &mut s.ed,
        &mut *s.plens,
        &mut *s.paths,
        &mut *s.tlens,
        &mut *s.trees,
        raw,
        size,
    );
    Ok(())
}

// Whether the slices are as long as a store.
fn long_enough(v: View<'_>, order: &[u64]) -> bool
    ensures { (ed : Record) → Decides (Long (lent ed v.entry.plens.now v.entry.paths.now v.entry.tlens.now v.entry.trees.now order.now)) result }
{
    SLOTS <= v.plens.len()
        && PATH_BYTES <= v.paths.len()
        && SLOTS <= v.tlens.len()
        && TREE_BYTES <= v.trees.len()
        && SLOTS <= order.len()
}

// Makes an editor with this root. Looks at no earlier content of the store.
pub fn new(s: &mut Store<'_>, order: &[u64], raw: &[u8]) -> Result<(), Refusal>
    ensures done { Makes raw.now (lent_in s.old order.now) (code_number result) (lent_in s.new order.now) }
    ensures lent { SameLent s.old s.new }
{
    if !long_enough(s.view(), order) {
        return Err(Refusal::StoreDamaged);
    }
    rooted(s, raw)
}

// Sets the root, and drops every cached tree.
pub fn set_root(s: &mut Store<'_>, order: &[u64], raw: &[u8]) -> Result<(), Refusal>
    ensures done { Does (set_root sha1 raw.now) (lent_in s.old order.now) (code_number result) (lent_in s.new order.now) }
    ensures lent { SameLent s.old s.new }
{
    if !store_check::holds::holds(s.view(), order) {
        return Err(Refusal::StoreDamaged);
    }
    if s.ed.open != 0 {
        return Err(Refusal::WriteOpen);
    }
    rooted(s, raw)
}
