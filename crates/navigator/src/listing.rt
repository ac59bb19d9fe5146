// Routes in a question's book.
ghost use Rattle.std.specs.Prelude.{◌≡◌, ◌+◌, ◌*◌, ◌≤◌, ◌++◌, length, take, drop};
ghost use Rattle.network.specs.Marks.{both, marks_of};

use network::LinkSet;

// Lists a route: the line, its links and then zeros, goes to the places of a number, counted from 0.
pub(crate) fn list_route(book: &mut [u16], number: usize, line: &[u16; 1024])
    requires { 1024 * (number + 1) ≤ length book.old }
    ensures { book.new ≡ take (1024 * number) book.old ++ (line.now ++ drop (1024 * (number + 1)) book.old) }
{
    let start = 1024 * number;
    book[start..start + 1024].copy_from_slice(line);
}

// How many links of a route stand in the places of route 1.
pub(crate) fn shared_with_first(route: &[u16], book: &[u16]) -> usize
    requires { 1024 ≤ length book.now }
    ensures { result ≡ both (marks_of route.now) (marks_of (take 1024 book.now)) }
{
    let links = LinkSet::of_places(route);
    let first = LinkSet::of_places(&book[..1024]);
    LinkSet::shared_count(&links, &first) as usize
}
