// Going down: what the walk finds, or would cache, at the path below.
ghost use Rattle.std.specs.Prelude.{◌≡◌, length};
ghost use Rattle.model.specs.Formats.{sha1};
ghost use Rattle.model.specs.Table.{looked_up};
ghost use Rattle.store_runs.specs.Digits.{digits};
ghost use Rattle.store_runs.specs.Runs.{cut};
ghost use Rattle.store_slots.specs.Stores.{KeysSound};
ghost use Rattle.editor_terms.specs.Ids.{id_bytes};
ghost use Rattle.editor_terms.specs.Edits.{wanted_as};
ghost use Rattle.editor_terms.specs.Tables.{objects_in};
ghost use Rattle.editor_walk.specs.Landings.{planned, read_plan, PlanIs, LandsAs};

use editor_terms::id::Id;
use editor_terms::refusal::Refusal;
use editor_terms::table::Objects;
use names::limits::WIDTH;
use names::tree::Size;
use store_slots::View;

// A raw tree of the table, and how many entries and name bytes it has.
#[derive(Clone, Copy)]
pub struct Raw<'a> {
    pub bytes: &'a [u8],
    pub size: Size,
}

// The tree is cached in a slot; or an empty tree is to be cached; or a raw tree of the table is; or the walk stops with an answer.
#[derive(Clone, Copy)]
pub enum Landing<'a> {
    There(usize),
    Fresh,
    Load(Raw<'a>),
    Halt(Result<(), Refusal>),
}

// The raw tree of an id, judged.
fn land_raw(table: Objects<'_>, id: Id) -> Landing<'_>
    ensures { PlanIs (read_plan sha1 (looked_up sha1.width (objects_in table.entry) (id_bytes id))) result }
{
    let Some(bytes) = table.find(id) else {
        return Landing::Halt(Err(Refusal::TreeNotFound));
    };
    match names::tree::well_formed(bytes, WIDTH) {
        Some(size) => Landing::Load(Raw { bytes, size }),
        None => Landing::Halt(Err(Refusal::TreeDamaged)),
    }
}

// Nothing is cached at the path: an id that is given, and is not the empty tree's, is looked up.
fn land_new(table: Objects<'_>, wanted: Option<Id>, leaf: bool) -> Landing<'_>
    ensures { PlanIs (planned sha1 (objects_in table.entry) «leaf» (wanted_as wanted)) result }
{
    match wanted {
        None => Landing::Fresh,
        Some(id) => {
            if !id.is_empty_tree() {
                return land_raw(table, id);
            }
            if leaf {
                Landing::Halt(Ok(()))
            } else {
                Landing::Fresh
            }
        }
    }
}

// What going down to the path `below` finds.
pub fn land<'a>(
    v: View<'_>,
    table: Objects<'a>,
    below: &[u8],
    wanted: Option<Id>,
    leaf: bool,
) -> Landing<'a>
    requires { KeysSound v × (length v.plens.now ≡ 64) }
    ensures { LandsAs (planned sha1 (objects_in table.entry) «leaf» (wanted_as wanted))
        (digits 64 v.entry.ed.hidden) (cut v.entry.plens.now v.entry.paths.now) below.now result }
{
    match v.find(below) {
        Some(slot) => Landing::There(slot),
        None => land_new(table, wanted, leaf),
    }
}
