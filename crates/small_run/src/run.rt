// The whole: what is written for an input.
ghost use Rattle.std.specs.Prelude.{Some, ◌≡◌, List, ◌++◌, ℕ, ◌≤◌, length, replicate};
ghost use Rattle.store_slots.specs.Stores.{SameLent};
ghost use Rattle.editor.specs.Lent.{lent_in, Good, viewed};
ghost use Rattle.small_records.specs.Records.{EditRecord, good as goodInput, reading};
ghost use Rattle.small_run.specs.Lesson.{record_lines, after_records, saved, output};
ghost use Rattle.small_run.specs.Puts.{Puts, Gives};

use names::limits::{PATH_BYTES, SLOTS, TREE_BYTES, WIDTH};
use store_slots::{Record, Store};

// Over a store that holds an empty root: the records, then the write.
fn run_over_store(
    s: &mut Store<'_>,
    order: &mut [u64],
    input: &[u8],
    out: &mut [u8],
) -> Option<usize>
    requires { Good (lent_in s.old order.old) × (length input.now ≤ 65536) × ((rs : List EditRecord) × (reading 20 input.now ≡ goodInput rs)) }
    ensures { (rs : List EditRecord) → reading 20 input.now ≡ goodInput rs
        → Puts out.old 0 (record_lines 1 rs (viewed (lent_in s.old order.old)) ++ saved (after_records rs (viewed (lent_in s.old order.old)))) result out.new }
{
    let to = crate::record::make_edits(s, order, input, out)?;
    crate::save::saved(s, order, out, to)
}

// A good input, from an empty root.
fn run_good_input(input: &[u8], out: &mut [u8]) -> Option<usize>
    requires { (length input.now ≤ 65536) × ((rs : List EditRecord) × (reading 20 input.now ≡ goodInput rs)) }
    ensures { Puts out.old 0 (output input.now) result out.new }
{
    let mut plens = [0u64; SLOTS];
    let mut paths = [0u8; PATH_BYTES];
    let mut tlens = [0u64; SLOTS];
    let mut trees = [0u8; TREE_BYTES];
    let mut order = [0u64; SLOTS];
    let mut s = Store {
        ed: Record {
            free: 0,
            hidden: 0,
            paths: 0,
            trees: 0,
            entries: 0,
            names: 0,
            open: 0,
            aside: 0,
            stacked: 0,
            asked: 0,
        },
        plens: &mut plens,
        paths: &mut paths,
        tlens: &mut tlens,
        trees: &mut trees,
    };
    let _ = editor::root::new(&mut s, &order, b"");
    run_over_store(&mut s, &mut order, input, out)
}

// Writes what there is to be written for an input to the front of the output, if it fits.
fn run_input(input: &[u8], out: &mut [u8]) -> Option<usize>
    ensures { Puts out.old 0 (output input.now) result out.new }
{
    match small_records::form::first_bad(input, WIDTH) {
        Ok(_) => run_good_input(input, out),
        Err(bad) => lines::text::put_number_line(out, 0, b"bad", bad.line as u64),
    }
}

// Writes what there is to be written for an input to the front of the output, if it fits; 303,104 bytes always suffice. Where it does not fit, the output
// is cleared, so that no part of a text is taken for a whole one.
pub fn run(input: &[u8], out: &mut [u8]) -> Option<usize>
    ensures output { Gives out.old (output input.now) result out.new }
    ensures whole { 303104 ≤ length out.old → (n : ℕ) × (result ≡ Some n) }
{
    let put = run_input(input, out);
    if put.is_none() {
        out.fill(0);
    }
    put
}
