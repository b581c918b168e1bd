// Edits, and what an edit does at one component.
ghost use Rattle.std.specs.Prelude.{◌≡◌, true, false, Some};
ghost use Rattle.model.specs.Bytes.{Bytes};
ghost use Rattle.model.specs.Tree.{Tree};
ghost use Rattle.model.specs.Walk.{is_leaf_removal};
ghost use Rattle.editor_terms.specs.Answers.{code_number};
ghost use Rattle.editor_terms.specs.Edits.{as_edit, TurnIs, turn_as, goes_on, wanted_by, wanted_as, ends_with};
ghost use Rattle.editor_terms.specs.declared.edit.Edit.TheVariants.{Remove, Upsert};

use crate::id::Id;
use crate::refusal::Refusal;
use names::mode::EntryKind;

#[derive(Clone, Copy, PartialEq, Eq)]
pub enum RemoveKind {
    Any,
    Leaf,
}

#[derive(Clone, Copy)]
pub enum Edit {
    Remove(RemoveKind),
    Upsert(EntryKind, Id),
}

// What is seen of an entry in the current tree.
#[derive(Clone, Copy)]
pub struct Seen {
    pub kind: EntryKind,
    pub id: Id,
}

// What is done at a component: the walk stops with an answer; or the entry goes, and the walk stops; or the entry has this kind and
// id now; or nothing is changed, and the walk goes down to the tree of this id.
#[derive(Clone, Copy)]
pub enum Turn {
    Stop(Result<(), Refusal>),
    Cut,
    Put(EntryKind, Id),
    Down(Id),
}

// A removal at the last component: the leaf kind refuses a tree.
fn remove_last(kind: RemoveKind, found: Seen) -> Turn
    ensures { TurnIs (Remove kind) true (Some found) result }
{
    if kind == RemoveKind::Leaf && found.kind.is_tree() {
        Turn::Stop(Err(Refusal::NotALeaf))
    } else {
        Turn::Cut
    }
}

// A removal: at an earlier component it goes on only through a tree.
fn remove_turn(kind: RemoveKind, last: bool, seen: Option<Seen>) -> Turn
    ensures { TurnIs (Remove kind) «last» seen result }
{
    match seen {
        Some(found) if last => remove_last(kind, found),
        Some(found) if found.kind.is_tree() => Turn::Down(found.id),
        _ => Turn::Stop(Ok(())),
    }
}

// An upsert at an earlier component: a tree entry gives its id; any other, or none, becomes a tree with null id.
fn through(seen: Option<Seen>) -> Turn
    ensures { (kind : EntryKind) (id : Id) → TurnIs (Upsert kind id) false seen result }
{
    match seen {
        Some(found) if found.kind.is_tree() => Turn::Down(found.id),
        _ => Turn::Put(EntryKind::Tree, Id::NULL),
    }
}

impl Edit {
    // What it does at a component, by the entry of its name.
    pub fn turn(self, last: bool, seen: Option<Seen>) -> Turn
        ensures { TurnIs self «last» seen result }
    {
        match self {
            Edit::Remove(kind) => remove_turn(kind, last, seen),
            Edit::Upsert(kind, id) if last => Turn::Put(kind, id),
            Edit::Upsert(_, _) => through(seen),
        }
    }

    // Whether it is the removal of a leaf.
    pub fn is_leaf_removal(self) -> bool
        ensures { result ≡ is_leaf_removal (as_edit self) }
    {
        matches!(self, Edit::Remove(RemoveKind::Leaf))
    }
}

impl Turn {
    // Whether the walk goes down after it: the opening of a cursor (`opening`) does so at the last component too.
    pub fn goes_down(self, last: bool, opening: bool) -> bool
        ensures { (n : Bytes) (t : Tree) → result ≡ goes_on opening (turn_as self «last» n t) }
    {
        match self {
            Turn::Stop(_) => false,
            Turn::Cut => opening,
            Turn::Put(_, _) => opening || !last,
            Turn::Down(_) => true,
        }
    }

    // The id of the tree that is to be loaded after it.
    pub fn wanted(self) -> Option<Id>
        ensures { wanted_as result ≡ wanted_by self }
    {
        match self {
            Turn::Down(id) => Some(id),
            _ => None,
        }
    }

    // What a walk answers that ends after it.
    pub fn answer(self) -> Result<(), Refusal>
        ensures { code_number result ≡ ends_with self }
    {
        match self {
            Turn::Stop(answer) => answer,
            _ => Ok(()),
        }
    }
}
