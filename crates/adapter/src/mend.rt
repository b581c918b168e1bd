// A damaged tree mended, for C.
ghost use Rattle.std.specs.Prelude.{◌≡◌};
ghost use Rattle.names_salvage.specs.Answers.{answer};
ghost use Rattle.names_salvage.specs.Mending.{salvaged};

use names_salvage::mend::Mended;

// Reads what can be read of a raw tree with ids of 20 or 32 bytes, and writes a well-formed one of what can be kept.
#[unsafe(no_mangle)]
pub extern "C" fn tree_editor_mend(raw: &[u8], width: usize, out: &mut [u8]) -> Mended
    ensures { answer result out.new ≡ salvaged width raw.now out.old }
{
    names_salvage::mend::mend(raw, width, out)
}
