//! Laws of copies and pastes. Each function does nothing: its contract is the law.
ghost use Rattle.clip_content.specs.Laws as laws;

/// What is copied is the least set with the named shapes, and with each shape whose parent is one of the set.
pub fn copies_the_least_set()
    ensures { laws.CopiesTheLeastSet }
{}

/// What a paste adds is the records of the clip under new ids that rise, none of which was there, and nothing else.
pub fn adds_these_records()
    ensures { laws.AddsTheseRecords }
{}

/// The id that a paste names as taken is the least of the new ids that the document has.
pub fn names_the_least_taken()
    ensures { laws.NamesTheLeastTaken }
{}

/// Among what is pasted, the children of a shape are those that it had, in their order.
pub fn keeps_children_in_order()
    ensures { laws.KeepsChildrenInOrder }
{}

/// The pasted bindings at a shape are the copied ones that it had.
pub fn keeps_bindings_within()
    ensures { laws.KeepsBindingsWithin }
{}

/// The pasted tops stand under the parent of the paste behind all its other children, in their order.
pub fn puts_tops_last()
    ensures { laws.PutsTopsLast }
{}
