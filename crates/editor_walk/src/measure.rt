// The first pass of an edit: its answer, or that one of its steps passes a limit. Changes nothing.
ghost use Rattle.std.specs.Prelude.{◌≡◌, true, false, List, ℕ, ◌≤◌, length};
ghost use Rattle.model.specs.Bytes.{has};
ghost use Rattle.model.specs.Tree.{Tree};
ghost use Rattle.model.specs.Paths.{full as fullPath};
ghost use Rattle.model.specs.Editor.{fits};
ghost use Rattle.model.specs.Measure.{within as withinLimits};
ghost use Rattle.store_slots.specs.View.{cached_of, Used};
ghost use Rattle.store_slots.specs.Stores.{KeysSound, LaidSeen};
ghost use Rattle.editor_terms.specs.Edits.{wanted_by};
ghost use Rattle.editor_walk.specs.Counted.{counts_as};
ghost use Rattle.editor_walk.specs.Levels.{Stored, Stands, SeenAt, StepIs, CachesAs, LandedAs, MeasuredAs, down_as, step_for};
ghost use Rattle.editor_walk.specs.Tasks.{cached_seen, edit_for, measure_for, path_seen, table_for, view_seen};

use crate::component::Component;
use crate::counts::Counts;
use crate::land::Landing;
use crate::task::Task;
use editor_terms::edit::{Seen, Turn};
use editor_terms::refusal::Refusal;
use names::limits::{ENTRIES, NAME_BYTES};
use names::tree::Size;
use std::ops::ControlFlow;
use store_slots::View;

// The tree that the walk would be at: cached in a slot, a raw tree of the table, or an empty one.
#[derive(Clone, Copy)]
pub enum Level<'a> {
    Slot(usize),
    Raw(&'a [u8]),
    Empty,
}

// How far the walk would be: the tree at hand, and what would be used by then.
#[derive(Clone, Copy)]
pub struct Stage<'a> {
    pub level: Level<'a>,
    pub counts: Counts,
}

// The entry of a name in the tree at hand.
fn seen_at(v: View<'_>, level: Level<'_>, name: &[u8]) -> Option<Seen>
    requires { Stored v.ed.trees v.tlens.now v.trees.now × ((t : Tree) × Stands v.tlens.now v.trees.now level t) × (has 47 name.now ≡ false) }
    ensures { SeenAt v.entry.tlens.now v.entry.trees.now level.entry name.now result }
{
    match level {
        Level::Slot(slot) => crate::seen::seen_in(v.tree_in(slot), name, false),
        Level::Raw(raw) => crate::seen::seen_in_raw(raw, name),
        Level::Empty => None,
    }
}

// A step down to a tree that is to be cached, of this size, at a path of n bytes; refused where it passes a limit.
fn cached<'a>(level: Level<'a>, size: Size, n: usize, u: Counts) -> Result<Stage<'a>, Refusal>
    requires { (withinLimits (counts_as u) ≡ true) × (n ≤ 1280) }
    ensures { CachesAs level.entry size n (counts_as u) result }
{
    if ENTRIES < size.entries || NAME_BYTES < size.name_bytes {
        return Err(Refusal::NoRoom);
    }
    let w = crate::counts::with_tree(size, n, u);
    if !crate::counts::within(w) {
        return Err(Refusal::NoRoom);
    }
    Ok(Stage { level, counts: w })
}

// A step that goes down to a path of n bytes: it ends the walk with an answer, or goes on; refused where it passes a limit.
fn landed<'a>(
    landing: Landing<'a>,
    n: usize,
    u: Counts,
) -> Result<ControlFlow<Result<(), Refusal>, Stage<'a>>, Refusal>
    requires { (withinLimits (counts_as u) ≡ true) × (n ≤ 1280) }
    ensures { LandedAs landing.entry n (counts_as u) result }
{
    let stage = match landing {
        Landing::There(slot) => Stage {
            level: Level::Slot(slot),
            counts: u,
        },
        Landing::Halt(answer) => {
            return Ok(ControlFlow::Break(answer));
        }
        Landing::Fresh => {
            let none = Size {
                entries: 0,
                name_bytes: 0,
            };
            cached(Level::Empty, none, n, u)?
        }
        Landing::Load(raw) => cached(Level::Raw(raw.bytes), raw.size, n, u)?,
    };
    Ok(ControlFlow::Continue(stage))
}

// The step down after a turn, to the path `below`.
fn go_down<'a>(
    v: View<'_>,
    task: Task<'a>,
    below: &[u8],
    turn: Turn,
    u: Counts,
) -> Result<ControlFlow<Result<(), Refusal>, Stage<'a>>, Refusal>
    requires { KeysSound v × (length v.plens.now ≡ 64) × (withinLimits (counts_as u) ≡ true) × (length below.now ≤ 1280) }
    ensures { (tlens trees : List ℕ) → length tlens ≡ 64 → StepIs tlens trees
        (down_as (table_for task.entry) (edit_for task.entry) below.now (wanted_by turn) (cached_of 20 v.entry.ed v.entry.plens.now v.entry.paths.now tlens trees) (counts_as u)) result }
{
    let wanted = turn.wanted();
    let leaf = task.edit.is_leaf_removal();
    let landing = crate::land::land(v, task.table, below, wanted, leaf);
    landed(landing, below.len(), u)
}

// One step: the edit at a component. It ends the walk with an answer, or goes on; refused where it passes a limit.
fn step<'a>(
    v: View<'_>,
    task: Task<'a>,
    here: Component<'_>,
    stage: Stage<'a>,
) -> Result<ControlFlow<Result<(), Refusal>, Stage<'a>>, Refusal>
    requires { KeysSound v × (length v.plens.now ≡ 64) × Stored v.ed.trees v.tlens.now v.trees.now
        × ((t : Tree) × Stands v.tlens.now v.trees.now stage.level t)
        × (has 47 here.name.now ≡ false) × (length here.below.now ≤ 1280) × (length here.name.now ≤ 1280) × (withinLimits (counts_as stage.counts) ≡ true) }
    ensures { (t : Tree) → Stands v.entry.tlens.now v.entry.trees.now stage.entry.level t → StepIs v.entry.tlens.now v.entry.trees.now
        (step_for task.entry here.entry.last here.entry.below.now here.entry.name.now t (cached_seen v.entry) (counts_as stage.entry.counts)) result }
{
    let n = here.name.len();
    if n == 0 {
        return Ok(ControlFlow::Break(Err(Refusal::EmptyComponent)));
    }
    let seen = seen_at(v, stage.level, here.name);
    let turn = task.edit.turn(here.last, seen);
    let u = crate::counts::turned(turn, seen, n, stage.counts);
    if !crate::counts::within(u) {
        return Err(Refusal::NoRoom);
    }
    if !turn.goes_down(here.last, task.opening) {
        return Ok(ControlFlow::Break(turn.answer()));
    }
    go_down(v, task, here.below, turn, u)
}

// The answer of an edit whose steps each keep the limits, from the tree in a slot; else the refusal. `full` is that tree's path with the path.
pub fn measure(
    v: View<'_>,
    task: Task<'_>,
    full: &[u8],
    path: &[u8],
    slot: usize,
) -> Result<Result<(), Refusal>, Refusal>
    requires { LaidSeen 20 v × (v.ed.hidden ≡ v.ed.free) × (fits (view_seen v) ≡ true)
        × Used v.ed slot × (full.now ≡ fullPath (path_seen v slot) path.now) × (length full.now ≤ 1280) }
    ensures { MeasuredAs (measure_for task.entry (path_seen v.entry slot) path.now (view_seen v.entry)) result }
{
    if path.len() == 0 {
        return Ok(Ok(()));
    }
    let mut p = path;
    let mut stage = Stage {
        level: Level::Slot(slot),
        counts: crate::counts::counts_of(v.ed),
    };
    loop {
        let here = crate::component::first(full, p);
        match step(v, task, here, stage)? {
            ControlFlow::Break(answer) => {
                return Ok(answer);
            }
            ControlFlow::Continue(next) => {
                stage = next;
            }
        }
        if here.last {
            return Ok(Ok(()));
        }
        p = here.rest;
    }
}
