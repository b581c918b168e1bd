// Calls that read, for C: the record goes by value.
ghost use Rattle.std.specs.Prelude.{◌≤◌, length};
ghost use Rattle.model.specs.Bytes.{Bytes};
ghost use Rattle.editor_walk.specs.Lookups.{looked_as};
ghost use Rattle.editor.specs.Lent.{lent, Good};
ghost use Rattle.adapter.specs.Reads.{Tells, Gives, Gets};

use editor_terms::edit::Seen;
use editor_terms::refusal::Refusal;
use names::limits::WIDTH;
use names::mode::Mode;
use store_slots::{Record, View};

// The number that a lookup gives; the id of an entry goes to the front of the slice.
fn tell_lookup(found: Result<Option<Seen>, Refusal>, id: &mut [u8]) -> u32
    requires { 20 ≤ length id.old }
    ensures { (name : Bytes) → Gives (looked_as name found) id.old result id.new }
{
    match found {
        Ok(Some(seen)) => {
            names::write::put(id, 0, &seen.id.bytes);
            Mode::from(seen.kind).bits
        }
        Ok(None) => 0,
        Err(refusal) => u32::from(u8::from(refusal)),
    }
}

// The entry at a path below a prefix: its mode, with its id at the front of the slice; 0 where there is none; or the number of the refusal: 255 where the
// slice has less than 20 bytes.
#[unsafe(no_mangle)]
pub extern "C" fn tree_editor_get(
    ed: Record,
    plens: &[u64],
    paths: &[u8],
    tlens: &[u64],
    trees: &[u8],
    order: &[u64],
    prefix: &[u8],
    path: &[u8],
    id: &mut [u8],
) -> u32
    ensures { Gets prefix.now path.now
        (lent ed plens.now paths.now tlens.now trees.now order.now)
        id.old result id.new }
{
    if id.len() < WIDTH {
        return 255;
    }
    let v = View {
        ed,
        plens,
        paths,
        tlens,
        trees,
    };
    tell_lookup(editor::look::get(v, order, prefix, path), id)
}

// 1 where record and slices hold an editor, else 0.
#[unsafe(no_mangle)]
pub extern "C" fn tree_editor_holds(
    ed: Record,
    plens: &[u64],
    paths: &[u8],
    tlens: &[u64],
    trees: &[u8],
    order: &[u64],
) -> u8
    ensures { Tells (Good (lent ed plens.now paths.now tlens.now trees.now order.now)) result }
{
    let v = View {
        ed,
        plens,
        paths,
        tlens,
        trees,
    };
    u8::from(store_check::holds::holds(v, order))
}
