// The write: its requests told and answered, one after the other.
ghost use Rattle.std.specs.Prelude.{◌≡◌, ◌≤◌, length};
ghost use Rattle.std.proofs.Math.Option.{some};
ghost use Rattle.model.specs.Editor.{Held};
ghost use Rattle.model.specs.Formats.{sha1};
ghost use Rattle.model.specs.Write.{requested, answered};
ghost use Rattle.editor_terms.specs.Ids.{id_bytes};
ghost use Rattle.store_slots.specs.Stores.{SameLent};
ghost use Rattle.editor.specs.Lent.{lent_in, lent_seen, Good, viewed};
ghost use Rattle.small_run.specs.Lesson.{count_id, request_lines, write_lines, saved as savedLines};
ghost use Rattle.small_run.specs.Puts.{Puts, Leaves};

use editor_terms::id::Id;
use names::limits::WIDTH;
use store_slots::{Store, View};

// A count as an id.
fn counted(k: u32) -> Id
    ensures { id_bytes result ≡ count_id k }
{
    let mut bytes = [0u8; WIDTH];
    bytes[WIDTH - 4..].copy_from_slice(&k.to_be_bytes());
    Id { bytes }
}

// Writes the two lines of the open request, its path and its raw tree, and gives the place after them.
fn put_request(
    v: View<'_>,
    order: &[u64],
    raw: &mut [u8],
    out: &mut [u8],
    to: usize,
) -> Option<usize>
    requires { Good (lent_seen v order.now) × (45056 ≤ length raw.old) × (to ≤ length out.old) × ((h : Held) × (requested (viewed (lent_seen v order.now)) ≡ some h)) }
    ensures { (h : Held) → requested (viewed (lent_seen v.entry order.now)) ≡ some h → Puts out.old to (request_lines h) result out.new }
{
    match editor_write::request::request(v, order, raw) {
        Ok(asked) => {
            let at = asked.at;
            let path = names::part::front(&at.prefix, at.len);
            let next = lines::text::put_hex_line(out, to, b"tree", path)?;
            lines::text::put_hex_line(out, next, b"raw", names::part::front(raw, asked.len))
        }
        Err(_) => unreachable!(),
    }
}

// Tells the open request, and answers it with its number: gives the place after what was written.
fn make_request(
    s: &mut Store<'_>,
    order: &mut [u64],
    raw: &mut [u8],
    out: &mut [u8],
    to: usize,
    k: u32,
) -> Option<usize>
    requires { Good (lent_in s.old order.old) × (45056 ≤ length raw.old) × (to ≤ length out.old) × ((h : Held) × (requested (viewed (lent_in s.old order.old)) ≡ some h)) }
    ensures editor { Leaves (answered sha1 (count_id k) (viewed (lent_in s.old order.old))) (lent_in s.new order.new) }
    ensures put { (h : Held) → requested (viewed (lent_in s.old order.old)) ≡ some h → Puts out.old to (request_lines h) result out.new }
    ensures lent { SameLent s.old s.new }
{
    let put = put_request(s.view(), order, raw, out, to);
    let _ = editor_write::answer::answer(s, order, counted(k));
    put
}

// All requests of an open write, and the root's id, which is the last one's number.
fn requests(
    s: &mut Store<'_>,
    order: &mut [u64],
    raw: &mut [u8],
    out: &mut [u8],
    to: usize,
) -> Option<usize>
    requires { Good (lent_in s.old order.old) × (45056 ≤ length raw.old) × (to ≤ length out.old) }
    ensures put { Puts out.old to (write_lines 65 0 (viewed (lent_in s.old order.old))) result out.new }
    ensures lent { SameLent s.old s.new }
{
    let mut at = to;
    let mut k: u32 = 0;
    // Stays: what is open, and not a count, ends it; a range would want a bound that is never met, and k is told after the end.
    while s.ed.open != 0 {
        k += 1;
        at = make_request(s, order, raw, out, at, k)?;
    }
    lines::text::put_hex_line(out, at, b"root", &counted(k).bytes)
}

// Writes from the root.
pub fn saved(s: &mut Store<'_>, order: &mut [u64], out: &mut [u8], to: usize) -> Option<usize>
    requires { Good (lent_in s.old order.old) × (to ≤ length out.old) }
    ensures put { Puts out.old to (savedLines (viewed (lent_in s.old order.old))) result out.new }
    ensures lent { SameLent s.old s.new }
{
    let mut raw = [0u8; 45056];
    let _ = editor_write::begin::begin(s, order);
    requests(s, order, &mut raw, out, to)
}
