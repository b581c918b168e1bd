// The entry of a name in a tree.
ghost use Rattle.std.specs.Prelude.{◌≡◌, true, false, ◌<◌, length, Some};
ghost use Rattle.std.proofs.Math.Option.{some};
ghost use Rattle.model.specs.Bytes.{has};
ghost use Rattle.model.specs.Map.{rising};
ghost use Rattle.model.specs.Tree.{key};
ghost use Rattle.names_compact.specs.Compact.{unpack, Run, offset, entry_at};
ghost use Rattle.editor_terms.specs.Edits.{parts_of, seen_as};
ghost use Rattle.editor_walk.specs.Seen.{entry_by, SeenIn};

use editor_terms::edit::Seen;
use names::limits::WIDTH;
use names::order::Key;
use names_compact::compact::{Place, Tree};

// The entry of a tree that a search found.
fn entry_seen(tree: Tree<'_>, place: Place) -> Seen
    requires { (tree.width ≡ 20) × (place.at ≡ offset tree.width tree.bytes.now place.index) × (place.index < length (unpack tree.width tree.bytes.now)) }
    ensures { seen_as (Some result) ≡ parts_of (some (entry_at tree.entry.width tree.entry.bytes.now place.index)) }
{
    let kind = tree.kind_at(place.at, place.index);
    let id = editor_terms::id::id_at(tree.bytes, place.at + 2);
    Seen { kind, id }
}

// The entry of a name in a tree in compact form; an edit searches in file order first, a lookup in tree order.
pub fn seen_in(tree: &[u8], name: &[u8], tree_first: bool) -> Option<Seen>
    requires { Run 20 tree.now × (rising key (unpack 20 tree.now) ≡ true) }
    ensures { seen_as result ≡ parts_of (entry_by tree_first name.now (unpack 20 tree.now)) }
{
    let tree = Tree {
        bytes: tree,
        width: WIDTH,
    };
    let key = Key {
        name,
        tree: tree_first,
    };
    match tree.search(key) {
        Ok(place) => Some(entry_seen(tree, place)),
        Err(place) => match tree.search_twin(key, place) {
            Ok(twin) => Some(entry_seen(tree, twin)),
            Err(_) => None,
        },
    }
}

// The entry of a name, which has no slash, in a raw tree that is well formed.
pub fn seen_in_raw(raw: &[u8], name: &[u8]) -> Option<Seen>
    requires { has 47 name.now ≡ false }
    ensures { SeenIn raw.now name.now result }
{
    let mut at = 0;
    while at < raw.len() {
        let entry = names::raw::read_entry(raw, at, WIDTH)?;
        if names::order::same_bytes(
            names::part::between(raw, entry.name_at, entry.name_len),
            name,
        ) {
            return Some(Seen {
                kind: entry.kind,
                id: editor_terms::id::id_at(raw, entry.id_at),
            });
        }
        at = entry.next;
    }
    None
}
