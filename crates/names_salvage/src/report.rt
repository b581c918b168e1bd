// The report of a mended tree, written into lent bytes.
ghost use Rattle.std.specs.Prelude.{◌≡◌, take};
ghost use Rattle.model.specs.Bytes.{Bytes};
ghost use Rattle.names_salvage.specs.Answers.{answer};
ghost use Rattle.names_salvage.specs.Report.{done_lines, reported, Told};

use crate::mend::Mended;
use lines::text::{put_hex_line, put_number_line};

// Writes the five lines and the tree.
fn put_done(m: Mended, tree: &[u8], out: &mut [u8]) -> Option<usize>
    ensures { (d : Bytes) → tree.now ≡ take m.len d → Told out.old (done_lines (answer m d)) result out.new }
{
    let at = put_number_line(out, 0, b"cut", m.cut as u64)?;
    let at = put_number_line(out, at, b"badname", m.badname as u64)?;
    let at = put_number_line(out, at, b"badmode", m.badmode as u64)?;
    let at = put_number_line(out, at, b"double", m.double as u64)?;
    let at = put_number_line(out, at, b"moved", m.moved as u64)?;
    put_hex_line(out, at, b"raw", tree)
}

// Mends a tree and writes the report, or the number of a refusal.
pub fn report(raw: &[u8], width: usize, out: &mut [u8]) -> Option<usize>
    ensures { Told out.old (reported width raw.now) result out.new }
{
    let mut tree = [0u8; 57344];
    match crate::mend::try_mend(raw, width, &mut tree) {
        Ok(m) => put_done(m, names::part::front(&tree, m.len), out),
        Err(refusal) => { put_number_line(out, 0, b"code", Mended::from(refusal).code as u64) }
    }
}
