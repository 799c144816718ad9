//! Nodes and the ends of lists as they lie in memory, and the two writes by which lists change.
ghost use Rattle.std.specs.Prelude.{◌≡◌, ◌<◌, length, IfSome};
ghost use Rattle.links_core.specs.Writes.{write_node, write_ends, with_next, with_prev, with_first, with_last};

/// A node: the list that has it, and its neighbours there. A node in no list has none of the three.
#[derive(Clone, Copy)]
pub(crate) struct Node {
    pub(crate) list: Option<usize>,
    pub(crate) prev: Option<usize>,
    pub(crate) next: Option<usize>,
}

/// The first and the last node of a list; an empty list has neither.
#[derive(Clone, Copy)]
pub(crate) struct Ends {
    pub(crate) first: Option<usize>,
    pub(crate) last: Option<usize>,
}

/// Lets `next` come after the node `before`, or come first where there is none before.
pub(crate) fn set_next(
    nodes: &mut [Node],
    ends: &mut [Ends],
    list: usize,
    before: Option<usize>,
    next: Option<usize>,
)
    requires before { IfSome before (λ x. x < length nodes.old) }
    requires list { list < length ends.old }
    ensures nodes { nodes.new ≡ write_node nodes.old before (with_next next) }
    ensures ends { ends.new ≡ write_ends ends.old list before (with_first next) }
{
    match before {
        Some(before) => nodes[before].next = next,
        None => ends[list].first = next,
    }
}

/// Lets `prev` come before the node `after`, or come last where there is none after.
pub(crate) fn set_prev(
    nodes: &mut [Node],
    ends: &mut [Ends],
    list: usize,
    after: Option<usize>,
    prev: Option<usize>,
)
    requires after { IfSome after (λ x. x < length nodes.old) }
    requires list { list < length ends.old }
    ensures nodes { nodes.new ≡ write_node nodes.old after (with_prev prev) }
    ensures ends { ends.new ≡ write_ends ends.old list after (with_last prev) }
{
    match after {
        Some(after) => nodes[after].prev = prev,
        None => ends[list].last = prev,
    }
}
