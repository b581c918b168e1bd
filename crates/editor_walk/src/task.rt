// What a walk is to do.
use editor_terms::edit::Edit;
use editor_terms::table::Objects;

// An edit, with the objects that it may load; `opening` is for the opening of a cursor, which goes down at the last component too.
#[derive(Clone, Copy)]
pub struct Task<'a> {
    pub table: Objects<'a>,
    pub edit: Edit,
    pub opening: bool,
}
