//! What no clause says: each call once with ample memory, and rounds that were counted by hand.
ghost use Rattle.std.specs.Prelude.{◌≡◌, ◌≤◌, ◌∷◌, []};

use crate::seen::{seen_of, shows};
use re_labels::{Degrees, NoMemory, PortLabels, Side};
use re_net::{JoinFault, MAX_NODES, Net, Tree};
use re_pool::{NodeId, Pool, Rule};
use std::alloc::Global;
use std::process::Abort;

// A join: a node, a port, and the new node's port.
type Triple = (u32, u8, u8);

// A tree for the degrees 3 and 2 in which nodes 0 and 4 have all their ports. The first four joins make the smaller tree.
const JOINS: [Triple; 6] = [
    (0, 1, 1),
    (0, 2, 1),
    (0, 3, 2),
    (3, 1, 1),
    (4, 2, 1),
    (4, 3, 1),
];

// Whether all could be joined.
fn join_all(tree: &mut Tree, joins: &[Triple]) -> bool {
    for join in joins {
        if tree.join(join.0, join.1, join.2).is_err() {
            return false;
        }
    }
    true
}

// The tree of these joins; NoMemory stands for one that can't be made, too.
fn tree_of(alloc: Global, joins: &[Triple]) -> Result<Tree, NoMemory> {
    let degrees = Degrees {
        active: 3,
        passive: 2,
    };
    let mut tree = Tree::new(alloc, degrees, Side::Active)?;
    if join_all(&mut tree, joins) {
        Ok(tree)
    } else {
        Err(NoMemory)
    }
}

// Joins nodes by their port 1, up to `fan` behind each node but node 0: a chain for 1, a star for 5 and 7 nodes. Says whether all could be
// joined.
fn grow(tree: &mut Tree, fan: u8, nodes: u32) -> bool
    requires least { 1 ≤ fan }
    requires most { fan ≤ 5 }
{
    for node in 1..nodes {
        let (to, port) = if node == 1 {
            (0, 1)
        } else {
            place(fan, node - 2)
        };
        if tree.join(to, port, 1).is_err() {
            return false;
        }
    }
    true
}

fn grown(alloc: Global, fan: u8, nodes: u32) -> Result<Tree, NoMemory>
    requires least { 1 ≤ fan }
    requires most { fan ≤ 5 }
{
    let degrees = Degrees {
        active: 6,
        passive: 6,
    };
    let mut tree = Tree::new(alloc, degrees, Side::Active)?;
    if grow(&mut tree, fan, nodes) {
        Ok(tree)
    } else {
        Err(NoMemory)
    }
}

// The node and the port at which a later node is joined.
fn place(fan: u8, later: u32) -> (u32, u8)
    requires least { 1 ≤ fan }
    requires most { fan ≤ 5 }
{
    let fan = u32::from(fan);
    (later / fan, (later % fan) as u8 + 2)
}

fn net_of(alloc: Global, tree: Tree, bound: u8) -> Result<Net, NoMemory> {
    let numbered = tree.numbered();
    if numbered && bound <= 64 {
        Net::new(alloc, tree, bound)
    } else {
        Err(NoMemory)
    }
}

// Delivers the message where that is legal, and says whether it is.
fn deliver(net: &mut Net, from: u32, port: u8, number: u8) -> Result<bool, NoMemory> {
    if from >= net.tree().len() || net.tree().neighbour(from, port).is_none() {
        return Ok(false);
    }
    if number >= net.bound() || number > net.round(from) {
        return Ok(false);
    }
    net.deliver(from, port, number)?;
    Ok(true)
}

// Delivers message `number` of a node over each of its ports, `times` times.
fn deliver_over_all(net: &mut Net, from: u32, number: u8, times: u8) -> Result<(), NoMemory> {
    for _ in 0..times {
        for port in 1..7u8 {
            deliver(net, from, port, number)?;
        }
    }
    Ok(())
}

// All messages, by their numbers and then by their nodes.
fn deliver_in_order(net: &mut Net, times: u8) -> Result<(), NoMemory> {
    for number in 0..net.bound() {
        for node in 0..net.tree().len() {
            deliver_over_all(net, node, number, times)?;
        }
    }
    Ok(())
}

// All messages, in an order in which those of later numbers come as early as they may.
fn deliver_mixed(net: &mut Net, times: u8) -> Result<(), NoMemory> {
    let bound = net.bound();
    let nodes = net.tree().len();
    for _ in 0..bound {
        for index in 0..nodes {
            for number in 0..bound {
                deliver_over_all(net, mixed(index, nodes), bound - 1 - number, times)?;
            }
        }
    }
    Ok(())
}

// The nodes in another order, for a number of nodes that has no divisor in common with 1,013.
fn mixed(index: u32, nodes: u32) -> u32
    requires { 1 ≤ nodes }
{
    ((u64::from(index) * 1_013) % u64::from(nodes)) as u32
}

// Each node's round and the back ports of its view.
fn standing(alloc: Global, net: &Net) -> Result<Vec<u8>, NoMemory> {
    let mut list = Vec::new(alloc);
    for node in 0..net.tree().len() {
        list.push(net.round(node))?;
        let view = net.pool().tree(net.view(node))?;
        for back in &seen_of(alloc, &view)?.backs {
            list.push(*back)?;
        }
    }
    Ok(list)
}

fn rounds_of(alloc: Global, net: &Net) -> Result<Vec<u8>, NoMemory> {
    let mut rounds = Vec::new(alloc);
    for node in 0..net.tree().len() {
        rounds.push(net.round(node))?;
    }
    Ok(rounds)
}

// The messages of a tree of two nodes: too early, and then each where it is legal. Of each is told whether it was legal, and whether it is
// delivered then.
fn told_of_messages(alloc: Global, net: &mut Net) -> Result<Vec<u8>, NoMemory> {
    let mut told = Vec::new(alloc);
    for (from, number) in [(0, 1), (1, 0), (0, 1), (0, 0)] {
        told.push(u8::from(deliver(net, from, 1, number)?))?;
        told.push(u8::from(net.delivered(from, 1, number)))?;
    }
    Ok(told)
}

// What is delivered, each message so often, and told.
#[derive(Clone, Copy)]
enum Course {
    Messages,
    InOrder(u8),
    Mixed(u8),
    Rounds,
}

fn told_of(alloc: Global, net: &mut Net, course: Course) -> Result<Vec<u8>, NoMemory> {
    match course {
        Course::Messages => told_of_messages(alloc, net),
        Course::InOrder(times) => {
            deliver_in_order(net, times)?;
            standing(alloc, net)
        }
        Course::Mixed(times) => {
            deliver_mixed(net, times)?;
            standing(alloc, net)
        }
        Course::Rounds => {
            deliver_mixed(net, 2)?;
            rounds_of(alloc, net)
        }
    }
}

// What is told of a net of this tree.
fn told(alloc: Global, tree: Tree, bound: u8, course: Course) -> Result<Vec<u8>, NoMemory> {
    let mut net = net_of(alloc, tree, bound)?;
    told_of(alloc, &mut net, course)
}

// Whether the node sees these back ports and these edges.
fn sees(alloc: Global, tree: &Tree, node: u32, radius: u8, backs: &[u8], edges: &[u32]) -> bool {
    if node >= tree.len() {
        return false;
    }
    match tree.surroundings(node, radius) {
        Ok(view) => shows(alloc, &view, backs, edges),
        Err(_) => false,
    }
}

fn are_edges_in_order(alloc: Global) -> bool {
    match tree_of(alloc, &JOINS[..4]) {
        Ok(tree) => {
            sees(alloc, &tree, 0, 1, &[1, 1, 2, 0], &[1, 2, 3])
                && sees(alloc, &tree, 4, 2, &[1, 3, 0, 0], &[4, 3])
        }
        Err(_) => false,
    }
}

#[test]
fn edges_in_order(rt: HostRuntime) {
    assert!(rt; are_edges_in_order(rt.alloc()));
}

// Whether the messages of a tree of two nodes are told so.
fn are_told(alloc: Global, tree: Tree, want: &[u8]) -> bool {
    match told(alloc, tree, 2, Course::Messages) {
        Ok(found) => found.as_slice() == want,
        Err(_) => false,
    }
}

fn are_legal_ones_delivered(alloc: Global) -> bool {
    match tree_of(alloc, &JOINS[..1]) {
        Ok(tree) => are_told(alloc, tree, &[0, 0, 1, 1, 1, 1, 1, 1]),
        Err(_) => false,
    }
}

#[test]
fn delivered_messages(rt: HostRuntime) {
    assert!(rt; are_legal_ones_delivered(rt.alloc()));
}

// How the nodes stand when all messages were delivered.
fn end_of(
    alloc: Global,
    fan: u8,
    nodes: u32,
    bound: u8,
    course: Course,
) -> Result<Vec<u8>, NoMemory>
    requires least { 1 ≤ fan }
    requires most { fan ≤ 5 }
{
    let tree = grown(alloc, fan, nodes)?;
    told(alloc, tree, bound, course)
}

fn ends_so(alloc: Global, fan: u8, nodes: u32, course: Course, end: &[u8]) -> bool
    requires least { 1 ≤ fan }
    requires most { fan ≤ 5 }
{
    match end_of(alloc, fan, nodes, 3, course) {
        Ok(other) => other.as_slice() == end,
        Err(_) => false,
    }
}

// Whether messages that come in another order, or twice, lead to the same end.
fn has_one_end(alloc: Global, fan: u8, nodes: u32) -> bool
    requires least { 1 ≤ fan }
    requires most { fan ≤ 5 }
{
    match end_of(alloc, fan, nodes, 3, Course::InOrder(1)) {
        Ok(end) => {
            ends_so(alloc, fan, nodes, Course::InOrder(2), end.as_slice())
                && ends_so(alloc, fan, nodes, Course::Mixed(1), end.as_slice())
                && ends_so(alloc, fan, nodes, Course::Mixed(2), end.as_slice())
        }
        Err(_) => false,
    }
}

#[test]
fn one_end_whatever_the_order(rt: HostRuntime) {
    assert!(rt; has_one_end(rt.alloc(), 1, 30));
    assert!(rt; has_one_end(rt.alloc(), 5, 7));
    assert!(rt; has_one_end(rt.alloc(), 2, MAX_NODES));
}

// Whether one node more, at this port of the last one, is refused so.
fn is_refused(alloc: Global, port: u8, fault: JoinFault) -> bool {
    match grown(alloc, 2, MAX_NODES) {
        Ok(mut tree) => tree.join(4_095, port, 1) == Err(fault),
        Err(_) => false,
    }
}

#[test]
fn one_node_too_many(rt: HostRuntime) {
    assert!(rt; is_refused(rt.alloc(), 1, JoinFault::NoPlace));
    assert!(rt; is_refused(rt.alloc(), 2, JoinFault::TooManyNodes));
}

fn are_all(rounds: &[u8], round: u8) -> bool {
    for one in rounds {
        if *one != round {
            return false;
        }
    }
    true
}

// Whether as many nodes as there may be stand at round 2 when all messages of two rounds were delivered.
fn are_at_the_end(alloc: Global) -> bool {
    match end_of(alloc, 2, MAX_NODES, 2, Course::Rounds) {
        Ok(rounds) => rounds.len() == 4_096 && are_all(rounds.as_slice(), 2),
        Err(_) => false,
    }
}

#[test]
fn as_many_nodes_as_there_may_be(rt: HostRuntime) {
    assert!(rt; are_at_the_end(rt.alloc()));
}
