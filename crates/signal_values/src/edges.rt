//! Edges as nodes of two sets of lists.
ghost use Rattle.std.specs.Prelude.{◌≡◌, ℕ, ◌+◌, ◌-◌, ◌<◌, ◌≤◌, suc, [], ◌∷◌, ◌++◌, map, length, min, slice_set, vec_len, vec_capacity, IfOk, OnOk, OnErr};
ghost use Rattle.links_core.specs.Lists.{list_at, without, first_of};
ghost use Rattle.signal_values.specs.Wired.{children_of, AreWired, IsTaken, HaveGrown};

use links_core::Links;
use rooms_val::Mem;
use std::alloc::Global;
use std::marker::Model;

/// Edges between rows, from a parent to its children.
#[derive(Drop)]
pub struct Edges {
    // The edges out of row p are list p.
    by_parent: Links,
    // The free nodes are list 0, and the edges into row c are list c + 1.
    by_child: Links,
    // The child of each edge.
    ends: Vec<usize>,
}

impl Model for Edges {
    ghost use Rattle.std.specs.Prelude.{◌-◌, min, vec_len, vec_capacity};
    ghost use Rattle.signal_values.specs.Edges.{Children};
    ghost use Rattle.signal_values.specs.Wired.{children_of, AreWired};

    ghost Value = { Children };

    ghost view = { λ s. record {
      children = children_of s.ends.items s.by_parent.lists;
      spare = min (min s.by_parent.spare s.by_child.spare) (vec_capacity s.ends - vec_len s.ends);
    } };

    ghost invariant = { λ s. AreWired s.by_parent.lists s.by_child.lists s.by_parent.count
        s.by_child.count s.ends.items };
}

// Takes all edges into a child out of both their lists.
fn unlink_all(by_parent: &mut Links, by_child: &mut Links, ends: &[usize], child: usize)
    requires child { child < length by_parent.old.lists }
    requires wired { AreWired by_parent.old.lists by_child.old.lists by_parent.old.count
        by_child.old.count ends.now }
    ensures wired { AreWired by_parent.new.lists by_child.new.lists by_parent.new.count
        by_child.new.count ends.now }
    ensures children { children_of ends.now by_parent.new.lists
        ≡ map (without child) (children_of ends.now by_parent.old.lists) }
    ensures parent_spare { by_parent.new.spare ≡ by_parent.old.spare }
    ensures child_spare { by_child.new.spare ≡ by_child.old.spare }
{
    let count = by_child.list_count();
    prove!(child + 1 < count);
    let free = by_child.id(0);
    let list = by_child.id(child + 1);
    'edges: while let Some(edge) = by_child.first(list) {
        by_child.unlink(edge);
        by_parent.unlink(edge);
        by_child.push_back(free, edge);
    }
}

// A new node, where there is one to spare.
fn new_node(links: &mut Links) -> usize
    requires { 0 < links.old.spare }
    ensures node { result ≡ links.old.count }
    ensures count { links.new.count ≡ links.old.count + 1 }
    ensures lists { links.new.lists ≡ links.old.lists }
    ensures spare { links.old.spare ≡ links.new.spare + 1 }
{
    match links.node() {
        Ok(node) => node,
        Err(_) => unreachable!(),
    }
}

// A node for an edge to a child: one that is free, or else a new one.
fn take_node(
    by_parent: &mut Links,
    by_child: &mut Links,
    ends: &mut Vec<usize>,
    child: usize,
) -> usize
    requires wired { AreWired by_parent.old.lists by_child.old.lists by_parent.old.count
        by_child.old.count ends.old.items }
    requires parent_spare { 0 < by_parent.old.spare }
    requires child_spare { 0 < by_child.old.spare }
    requires room { vec_len ends.old < vec_capacity ends.old }
    ensures taken { IsTaken by_parent.old by_child.old by_parent.new by_child.new ends.old.items
        ends.new.items child result }
    ensures parent_spare { by_parent.old.spare ≤ by_parent.new.spare + 1 }
    ensures child_spare { by_child.old.spare ≤ by_child.new.spare + 1 }
    ensures room { vec_capacity ends.old - vec_len ends.old
        ≤ vec_capacity ends.new - vec_len ends.new + 1 }
{
    let free = by_child.id(0);
    if let Some(edge) = by_child.first(free) {
        by_child.unlink(edge);
        ends[edge] = child;
        return edge;
    }
    ends.push_reserved(child);
    let edge = new_node(by_parent);
    new_node(by_child);
    edge
}

// Makes the list of the edges into the next row, unless it was made and the row was not.
fn make_list(by_child: &mut Links, rows: usize) -> Mem<()>
    requires { rows < length by_child.old.lists }
    ensures ok { OnOk result (rows + 1 < length by_child.new.lists) }
    ensures lists { HaveGrown by_child.old.lists by_child.new.lists }
    ensures count { by_child.new.count ≡ by_child.old.count }
    ensures spare { by_child.new.spare ≡ by_child.old.spare }
{
    if by_child.list_count() - 1 > rows {
        return Ok(());
    }
    by_child.list()?;
    Ok(())
}

impl Edges {
    /// No rows and no edges.
    ///
    /// # Errors
    ///
    /// Memory was refused.
    pub fn new(alloc: Global) -> Mem<Edges>
        ensures { IfOk result (λ e. e.children ≡ []) }
    {
        let by_parent = Links::new(alloc);
        let mut by_child = Links::new(alloc);
        by_child.list()?;
        Ok(Edges {
            by_parent,
            by_child,
            ends: Vec::new(alloc),
        })
    }

    /// How many rows there are.
    pub fn rows(&self) -> usize
        ensures { result ≡ length self.now.children }
    {
        self.by_parent.list_count()
    }

    /// One more row, which has no edges.
    ///
    /// # Errors
    ///
    /// Memory was refused, and nothing changed.
    pub fn add_row(&mut self) -> Mem<()>
        ensures ok { OnOk result (self.new.children ≡ self.old.children ++ [] ∷ []) }
        ensures err { OnErr result (self.new.children ≡ self.old.children) }
        ensures spare { self.new.spare ≡ self.old.spare }
    {
        let rows = self.by_parent.list_count();
        make_list(&mut self.by_child, rows)?;
        self.by_parent.list()?;
        Ok(())
    }

    /// Takes the memory for so many edges.
    ///
    /// # Errors
    ///
    /// Memory was refused, and no edge changed.
    pub fn reserve(&mut self, additional: usize) -> Mem<()>
        ensures ok { OnOk result (additional ≤ self.new.spare) }
        ensures children { self.new.children ≡ self.old.children }
    {
        self.by_parent.reserve(additional)?;
        self.by_child.reserve(additional)?;
        self.ends.reserve(additional)?;
        Ok(())
    }

    /// The child of a row that was linked first: none exactly where the row has none. A fixed
    /// number of steps.
    pub fn first_child(&self, parent: usize) -> Option<usize>
        requires { parent < length self.now.children }
        ensures { result ≡ first_of (list_at self.now.children parent) }
    {
        let list = self.by_parent.id(parent);
        let edge = self.by_parent.first(list)?;
        Some(self.ends[edge])
    }

    /// A new edge, in a fixed number of steps and without memory.
    pub fn link(&mut self, parent: usize, child: usize)
        requires parent { parent < length self.old.children }
        requires child { child < length self.old.children }
        requires spare { 0 < self.old.spare }
        ensures children { self.new.children
            ≡ slice_set self.old.children parent (list_at self.old.children parent ++ child ∷ []) }
        ensures spare { self.old.spare ≤ self.new.spare + 1 }
    {
        let count = self.by_child.list_count();
        prove!(child + 1 < count);
        let edge = take_node(
            &mut self.by_parent,
            &mut self.by_child,
            &mut self.ends,
            child,
        );
        let from = self.by_parent.id(parent);
        let to = self.by_child.id(child + 1);
        self.by_parent.push_back(from, edge);
        self.by_child.push_back(to, edge);
    }

    /// Takes away all edges into a child, in a fixed number of steps for each and without memory.
    pub fn dissolve(&mut self, child: usize)
        requires { child < length self.old.children }
        ensures children { self.new.children ≡ map (without child) self.old.children }
        ensures spare { self.new.spare ≡ self.old.spare }
    {
        unlink_all(&mut self.by_parent, &mut self.by_child, &self.ends, child);
    }
}
