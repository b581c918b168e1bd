// Reading the open request, for C.
ghost use Rattle.editor.specs.Lent.{lent};
ghost use Rattle.adapter_numbers.specs.Asks.{slices, Asks};

use names::limits::PATH;
use store_slots::{Record, View};

// Writes the raw tree that is requested and the path it belongs at to the fronts of the slices.
#[unsafe(no_mangle)]
pub extern "C" fn tree_editor_request(
    ed: Record,
    plens: &[u64],
    paths: &[u8],
    tlens: &[u64],
    trees: &[u8],
    order: &[u64],
    out: &mut [u8],
    path: &mut [u8],
    lens: &mut [usize],
) -> u8
    ensures { Asks
        (lent ed plens.now paths.now tlens.now trees.now order.now)
        (slices out.old path.old lens.old) result (slices out.new path.new lens.new) }
{
    if lens.len() < 2 || path.len() < PATH {
        return 255;
    }
    let v = View {
        ed,
        plens,
        paths,
        tlens,
        trees,
    };
    adapter_numbers::told::tell_request(editor_write::request::request(v, order, out), path, lens)
}
