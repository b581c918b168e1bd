// Where a call below a prefix begins.
ghost use Rattle.std.specs.Prelude.{◌≡◌, List, ℕ, length};
ghost use Rattle.model.specs.Bytes.{Bytes};
ghost use Rattle.store_runs.specs.Digits.{digits};
ghost use Rattle.store_runs.specs.Runs.{cut, Sound};
ghost use Rattle.editor.specs.Looks.{ReadyIs};

use editor_terms::refusal::Refusal;
use store_slots::View;

// The slot of the prefix; or the refusal of a call at a path below it: no tree is cached there, or the path is refused.
pub fn slot_for(v: View<'_>, prefix: &[u8], path: &[u8]) -> Result<usize, Refusal>
    requires { Sound v.plens.now v.paths.now v.ed.paths × (length v.plens.now ≡ 64) }
    ensures { (w : ℕ) (runs : List Bytes) → length runs ≡ 64
        → ReadyIs w (digits 64 v.entry.ed.hidden) (cut v.entry.plens.now v.entry.paths.now) runs prefix.now path.now result }
{
    let slot = v.find(prefix).ok_or(Refusal::CursorStale)?;
    if names::path::is_refused(prefix, path) {
        return Err(Refusal::PathRefused);
    }
    Ok(slot)
}
