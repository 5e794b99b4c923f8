//! The nodes to which paths come. An `Err` is want of memory throughout.
ghost use Rattle.std.specs.Prelude.{◌≡◌, ◌<◌, ◌≤◌, ◌↔◌, ℕ, List, OnOk, IfOk, IsTrue, false, length};
ghost use Rattle.loom_trace.specs.Limits.{place_limit};
ghost use Rattle.loom_sites.specs.declared.node.TableNode.{TableNode};
ghost use Rattle.loom_sites.specs.declared.links.PlaceLinks.{PlaceLinks};
ghost use Rattle.loom_sites.specs.Nodes.{node_number};
ghost use Rattle.loom_sites.specs.Rows.{IsTable};
ghost use Rattle.loom_sites.specs.Reach.{nexts, is_halted, HasPathTo, has_node, IsWith, Visits, VisitsEach, IsWalked};

use crate::links::PlaceLinks;
use crate::node::TableNode;
use loom_trace::places::Places;
use loom_tree::name::NoMemory;
use std::alloc::Global;

/// A set of nodes.
#[derive(Debug, Drop)]
pub struct NodeSet {
    /// Those that start, by their places.
    pub starts: Places,
    /// Those that complete a statement, by its place.
    pub completions: Places,
}

fn no_nodes() -> NodeSet
    ensures { (m : TableNode) → has_node result m ≡ false }
{
    NodeSet {
        starts: Places::none(),
        completions: Places::none(),
    }
}

fn has(reached: &NodeSet, n: TableNode) -> bool
    requires { node_number n < place_limit }
    ensures { result ≡ has_node reached.now n }
{
    match n {
        TableNode::Start(k) => reached.starts.has(k),
        TableNode::Complete(k) => reached.completions.has(k),
    }
}

fn put(reached: &mut NodeSet, n: TableNode)
    requires { node_number n < place_limit }
    ensures { IsWith n reached.old reached.new }
{
    match n {
        TableNode::Start(k) => reached.starts.put(k),
        TableNode::Complete(k) => reached.completions.put(k),
    }
}

/// Whether paths end before the node: it completes the statement of one of these places.
fn is_halted(halts: &Places, n: TableNode) -> bool
    requires { node_number n < place_limit }
    ensures { result ≡ is_halted halts.now n }
{
    match n {
        TableNode::Start(_) => false,
        TableNode::Complete(k) => halts.has(k),
    }
}

/// A path comes to the node, unless it ends before.
fn visit(
    reached: &mut NodeSet,
    todo: &mut Vec<TableNode>,
    halts: &Places,
    n: TableNode,
) -> Result<(), NoMemory>
    requires { node_number n < place_limit }
    ensures { OnOk result (Visits halts.now n reached.old todo.old.items reached.new todo.new.items) }
{
    if has(reached, n) || is_halted(halts, n) {
        return Ok(());
    }
    todo.push(n)?;
    put(reached, n);
    Ok(())
}

fn visit_behind(
    links: &[PlaceLinks],
    reached: &mut NodeSet,
    todo: &mut Vec<TableNode>,
    halts: &Places,
    n: TableNode,
) -> Result<(), NoMemory>
    requires table { IsTable links.now }
    requires within { node_number n < length links.now }
    ensures { OnOk result (VisitsEach halts.now (nexts links.now n) reached.old todo.old.items reached.new todo.new.items) }
{
    match n {
        TableNode::Start(k) => {
            let row = links[k as usize];
            visit(reached, todo, halts, row.first)?;
            visit(reached, todo, halts, row.second)?;
            Ok(())
        }
        TableNode::Complete(k) => {
            visit(reached, todo, halts, links[k as usize].behind)?;
            Ok(())
        }
    }
}

/// The statements at these places begin.
fn put_starts(
    reached: &mut NodeSet,
    todo: &mut Vec<TableNode>,
    starts: &Places,
    halts: &Places,
    count: u16,
) -> Result<(), NoMemory>
    requires { count ≤ place_limit }
    ensures { (rows : List PlaceLinks) → count ≤ length rows → IsWalked rows starts.now halts.now 0 reached.old todo.old.items → OnOk result (IsWalked rows starts.now halts.now count reached.new todo.new.items) }
{
    'places: for k in 0..count {
        if starts.has(k) {
            visit(reached, todo, halts, TableNode::Start(k))?;
        }
    }
    Ok(())
}

/// The nodes to which paths come from the starts at these places, without the completions at the others.
pub fn reach(
    alloc: Global,
    links: &[PlaceLinks],
    starts: &Places,
    halts: &Places,
) -> Result<NodeSet, NoMemory>
    requires { IsTable links.now }
    ensures { IfOk result (λ r. (m : TableNode) → IsTrue (has_node r m) ↔ HasPathTo links.now starts.now halts.now m) }
{
    let mut reached = no_nodes();
    let mut todo = Vec::new(alloc);
    put_starts(&mut reached, &mut todo, starts, halts, links.len() as u16)?;
    'walk: while let Some(n) = todo.pop() {
        visit_behind(links, &mut reached, &mut todo, halts, n)?;
    }
    Ok(reached)
}
