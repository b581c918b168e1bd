// The components of a path, as a walk goes down it.
ghost use Rattle.std.specs.Prelude.{◌≤◌, length};
ghost use Rattle.editor_walk.specs.Components.{ComponentIs};

// A component, the path of the tree below it, what comes after it, and whether nothing does.
#[derive(Clone, Copy)]
pub struct Component<'a> {
    pub name: &'a [u8],
    pub below: &'a [u8],
    pub rest: &'a [u8],
    pub last: bool,
}

// The component that a path begins with; `full` ends with the path.
pub fn first<'a>(full: &'a [u8], path: &'a [u8]) -> Component<'a>
    requires { length path.now ≤ length full.now }
    ensures { ComponentIs full.now path.now result }
{
    let k = names::path::component_len(path);
    let end = full.len() - path.len() + k;
    Component {
        name: names::part::front(path, k),
        below: names::part::front(full, end),
        rest: names::path::tail(path, k),
        last: k == path.len(),
    }
}
