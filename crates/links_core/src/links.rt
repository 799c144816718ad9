//! Lists through one vector of nodes.
ghost use Rattle.std.specs.Prelude.{◌≡◌, ℕ, ◌+◌, ◌<◌, ◌≤◌, [], ◌∷◌, ◌++◌, map, length, slice_set, vec_len, vec_capacity, Contains, IsOk, IfOk, OnOk, OnErr};
ghost use Rattle.links_core.specs.Lists.{list_at, IsLinked, AreSound, without, first_of, last_of, IsNext, IsPrev};

use crate::nodes::{Ends, Node, set_next, set_prev};
use std::alloc::{AllocError, Global};
use std::marker::Model;

/// The number of a list of one [`Links`].
#[derive(Clone, Copy, PartialEq, Eq, Debug)]
pub struct ListId {
    number: usize,
}

/// Lists of node numbers, of which each node is in one or in none.
#[derive(Drop)]
pub struct Links {
    nodes: Vec<Node>,
    ends: Vec<Ends>,
}

impl Model for Links {
    ghost use Rattle.std.specs.Prelude.{◌-◌, vec_len, vec_capacity};
    ghost use Rattle.links_core.specs.Lists.{Lists};
    ghost use Rattle.links_core.specs.Threads.{walks, AreThreads};

    ghost Value = { Lists };

    ghost view = { λ s. record {
      lists = walks s.nodes.items s.ends.items;
      count = vec_len s.nodes;
      spare = vec_capacity s.nodes - vec_len s.nodes;
    } };

    ghost invariant = { λ s. AreThreads s.nodes.items s.ends.items
        (walks s.nodes.items s.ends.items) };
}

/// Takes memory for one more node, where none is left.
fn make_room(nodes: &mut Vec<Node>) -> Result<(), AllocError>
    ensures items { nodes.new.items ≡ nodes.old.items }
    ensures ok { OnOk result (vec_len nodes.new < vec_capacity nodes.new) }
    ensures err { OnErr result (vec_capacity nodes.new ≡ vec_capacity nodes.old) }
    ensures sure { vec_len nodes.old < vec_capacity nodes.old → IsOk result }
    ensures kept { vec_len nodes.old < vec_capacity nodes.old
        → vec_capacity nodes.new ≡ vec_capacity nodes.old }
{
    if nodes.len() < nodes.capacity() {
        return Ok(());
    }
    nodes.reserve(1)
}

impl Links {
    /// No lists and no nodes. It takes no memory.
    pub fn new(alloc: Global) -> Links
        ensures lists { result.lists ≡ [] }
        ensures count { result.count ≡ 0 }
    {
        Links {
            nodes: Vec::new(alloc),
            ends: Vec::new(alloc),
        }
    }

    /// A new list, which is empty.
    ///
    /// # Errors
    ///
    /// Memory was refused, and nothing changed.
    pub fn list(&mut self) -> Result<ListId, AllocError>
        ensures ok { IfOk result (λ l. (l.number ≡ length self.old.lists)
            × (self.new.lists ≡ self.old.lists ++ [] ∷ [])) }
        ensures err { OnErr result (self.new.lists ≡ self.old.lists) }
        ensures count { self.new.count ≡ self.old.count }
        ensures spare { self.new.spare ≡ self.old.spare }
    {
        let number = self.ends.len();
        self.ends.push(Ends {
            first: None,
            last: None,
        })?;
        Ok(ListId { number })
    }

    /// How many lists were made.
    pub fn list_count(&self) -> usize
        ensures { result ≡ length self.now.lists }
    {
        self.ends.len()
    }

    /// The list of a number. Lists are numbered from 0 as they are made.
    pub fn id(&self, number: usize) -> ListId
        requires { number < length self.now.lists }
        ensures { result.number ≡ number }
    {
        ListId { number }
    }

    /// A new node, which is in no list. Nodes are numbered from 0 as they are made.
    ///
    /// # Errors
    ///
    /// Memory was refused, which can't be where `reserve` left some to spare, and nothing changed.
    pub fn node(&mut self) -> Result<usize, AllocError>
        ensures ok { IfOk result
            (λ x. (x ≡ self.old.count) × (self.new.count ≡ self.old.count + 1)) }
        ensures err { OnErr result (self.new ≡ self.old) }
        ensures lists { self.new.lists ≡ self.old.lists }
        ensures unlinked { IfOk result (λ x. IsLinked self.new.lists x → ⊥) }

        // With some to spare the call succeeds, and takes one from it.
        ensures sure { 0 < self.old.spare → IsOk result }
        ensures spare { 0 < self.old.spare → self.old.spare ≡ self.new.spare + 1 }
    {
        make_room(&mut self.nodes)?;
        let number = self.nodes.len();
        self.nodes.push_reserved(Node {
            list: None,
            prev: None,
            next: None,
        });
        Ok(number)
    }

    /// Takes the memory for so many calls of `node`.
    ///
    /// # Errors
    ///
    /// Memory was refused, and nothing changed.
    pub fn reserve(&mut self, additional: usize) -> Result<(), AllocError>
        ensures ok { OnOk result (additional ≤ self.new.spare) }
        ensures err { OnErr result (self.new.spare ≡ self.old.spare) }
        ensures spare { self.old.spare ≤ self.new.spare }
        ensures lists { self.new.lists ≡ self.old.lists }
        ensures count { self.new.count ≡ self.old.count }
    {
        self.nodes.reserve(additional)
    }

    /// Puts an unlinked node at the end of a list, in a fixed number of steps and without memory.
    pub fn push_back(&mut self, list: ListId, node: usize)
        requires list { list.number < length self.old.lists }
        requires made { node < self.old.count }
        requires unlinked { IsLinked self.old.lists node → ⊥ }
        ensures lists { self.new.lists ≡ slice_set self.old.lists list.number
            (list_at self.old.lists list.number ++ node ∷ []) }
        ensures sound { AreSound self.new.lists self.new.count }
        ensures count { self.new.count ≡ self.old.count }
        ensures spare { self.new.spare ≡ self.old.spare }
    {
        let number = list.number;
        let nodes = self.nodes.as_mut_slice();
        let ends = self.ends.as_mut_slice();
        let last = ends[number].last;
        nodes[node] = Node {
            list: Some(number),
            prev: last,
            next: None,
        };
        set_next(nodes, ends, number, last, Some(node));
        set_prev(nodes, ends, number, None, Some(node));
    }

    /// Takes a linked node out of its list, in a fixed number of steps and without memory.
    pub fn unlink(&mut self, node: usize)
        requires { IsLinked self.old.lists node }
        ensures lists { self.new.lists ≡ map (without node) self.old.lists }
        ensures sound { AreSound self.new.lists self.new.count }
        ensures count { self.new.count ≡ self.old.count }
        ensures spare { self.new.spare ≡ self.old.spare }
    {
        let entry = self.nodes[node];
        let Some(number) = entry.list else {
            unreachable!();
        };
        let nodes = self.nodes.as_mut_slice();
        let ends = self.ends.as_mut_slice();
        set_next(nodes, ends, number, entry.prev, entry.next);
        set_prev(nodes, ends, number, entry.next, entry.prev);
        nodes[node] = Node {
            list: None,
            prev: None,
            next: None,
        };
    }

    /// Puts a linked node at the end of its list, in a fixed number of steps and without memory.
    pub fn move_back(&mut self, node: usize)
        requires { IsLinked self.old.lists node }
        ensures lists { (number : ℕ) → Contains (list_at self.old.lists number) node
            → self.new.lists ≡ slice_set (map (without node) self.old.lists) number
            (without node (list_at self.old.lists number) ++ node ∷ []) }
        ensures sound { AreSound self.new.lists self.new.count }
        ensures count { self.new.count ≡ self.old.count }
        ensures spare { self.new.spare ≡ self.old.spare }
    {
        let Some(number) = self.nodes[node].list else {
            unreachable!();
        };
        self.unlink(node);
        self.push_back(ListId { number }, node);
    }

    /// The first node of a list: none exactly where it is empty. A fixed number of steps.
    pub fn first(&self, list: ListId) -> Option<usize>
        requires { list.number < length self.now.lists }
        ensures sound { AreSound self.now.lists self.now.count }
        ensures value { result ≡ first_of (list_at self.now.lists list.number) }
    {
        self.ends[list.number].first
    }

    /// The last node of a list: none exactly where it is empty. A fixed number of steps.
    pub fn last(&self, list: ListId) -> Option<usize>
        requires { list.number < length self.now.lists }
        ensures sound { AreSound self.now.lists self.now.count }
        ensures value { result ≡ last_of (list_at self.now.lists list.number) }
    {
        self.ends[list.number].last
    }

    /// The node after another in its list: none exactly where that is the last, or in no list. A fixed number of steps.
    pub fn next(&self, node: usize) -> Option<usize>
        ensures sound { AreSound self.now.lists self.now.count }
        ensures value { IsNext self.now.lists node result }
    {
        self.nodes.get(node)?.next
    }

    /// The node before another in its list: none exactly where that is the first, or in no list. A fixed number of
    /// steps.
    pub fn prev(&self, node: usize) -> Option<usize>
        ensures sound { AreSound self.now.lists self.now.count }
        ensures value { IsPrev self.now.lists node result }
    {
        self.nodes.get(node)?.prev
    }
}
