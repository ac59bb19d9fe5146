// Writing a way down.
ghost use Rattle.std.specs.Prelude.{◌≡◌, ℕ, ◌+◌, ◌<◌, ◌≤◌, length};
ghost use Rattle.completion.specs.View.{depth_of, Threaded, Traced, Written};

use crate::tree::Tree;
use frontier::LinkNumber;

// Writes the way to a link into as many places as it has links, from the last to the first. The loop has the numbers of the
// places: of what is written through iter_mut().rev() nothing can be shown. It keeps the number of a link as steps do, since the
// number before the first link is 0, which is none.
fn write_way(tree: &Tree, link: LinkNumber, way: &mut [u16])
    requires labelled { 0 < depth_of tree.now link.number }
    requires room { length way.old ≡ depth_of tree.now link.number }
    requires threaded { Threaded tree.now }
    ensures { Traced tree.now link.number (length way.new) 0 way.new }
{
    let mut number = link.number;
    for place in (0..way.len()).rev() {
        way[place] = number;
        number = tree.steps[usize::from(number) - 1].before;
    }
}

// Writes links and then the way to a link to the front of a line, and zeros after them; answers how many links these are.
pub(crate) fn write_route(
    tree: &Tree,
    beginning: &[u16],
    link: LinkNumber,
    line: &mut [u16],
) -> usize
    requires labelled { 0 < depth_of tree.now link.number }
    requires room { length beginning.now + depth_of tree.now link.number ≤ length line.old }
    requires threaded { Threaded tree.now }
    ensures { Written tree.now link.number beginning.now line.old result line.new }
{
    let count = usize::from(tree.steps[link.place()].depth);
    let (front, rest) = line.split_at_mut(beginning.len());
    let (way, behind) = rest.split_at_mut(count);
    front.copy_from_slice(beginning);
    write_way(tree, link, way);
    behind.fill(0);
    beginning.len() + count
}
