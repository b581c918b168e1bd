// Writing a tree anew from what is read of it.
ghost use Rattle.std.specs.Prelude.{◌≤◌, length};
ghost use Rattle.std.specs.Counts.{IsPrefixLen};

use names::write::Entry;

// Writes an entry where there is room for it, and gives the place after what was written.
fn put_next(out: &mut [u8], to: usize, e: Entry<'_>) -> usize
    requires { to ≤ length out.old }
    ensures { result ≤ length out.new }
{
    if e.name.len() > 512 || e.id.len() > 64 || out.len() - to < 1024 {
        return to;
    }
    names::write::put_entry(out, to, e)
}

// Writes so many entries of a raw tree, one after the other, and gives how many bytes they are.
fn rewrite(raw: &[u8], entries: usize, out: &mut [u8]) -> usize
    ensures { IsPrefixLen result out.new }
{
    let mut at = 0;
    let mut to = 0;
    for _ in 0..entries {
        let Some(entry) = names::raw::read_entry(raw, at, 20) else {
            break;
        };
        let e = Entry {
            kind: entry.kind,
            name: names::part::between(raw, entry.name_at, entry.name_len),
            id: names::part::between(raw, entry.id_at, 20),
        };
        to = put_next(out, to, e);
        at = entry.next;
    }
    to
}

// Whether writing so many entries of a raw tree anew gives the same bytes.
pub fn is_same_again(raw: &[u8], entries: usize) -> bool {
    let mut out = [0u8; 32768];
    let n = rewrite(raw, entries, &mut out);
    &out[..n] == raw
}
