//! The lines behind the certificate, one after another.
ghost use Rattle.re_cert.specs.declared.certificate.TheConstants.{MAX_STEPS};
ghost use Rattle.re_io.specs.declared.read.TheConstants.{MAX_BYTES};
ghost use Rattle.re_net.specs.FiniteTrees.{IsNumbered};
ghost use Rattle.re_net.specs.RunReading.{AreMessages, Fits, Holds, state_of};
ghost use Rattle.re_net.specs.RunTexts.{delivers, in_deliveries, joins, judged, judged_in, tree_ends};
ghost use Rattle.re_net.specs.RunTexts.State.{AtRoot, BehindEnd, InDeliveries, InTree};
ghost use Rattle.re_net.specs.RunLines.{is_deliveries};
ghost use Rattle.re_net.specs.TreeTests.{can_send as can_be_sent};
ghost use Rattle.re_cert.specs.Bounds.{Bound};
ghost use Rattle.std.specs.Prelude.{◌≡◌, ◌≤◌, ◌+◌, ◌||◌, length, true, ℕ};
ghost use Rattle.re_problem.specs.NamedProblems.{degrees_of};

use crate::lines::{
    Section, first_strange_byte, is_deliveries_line, read_root, read_section, read_three,
};
use crate::messages::Message;
use crate::trees::{JoinFault, Tree};
use re_cert::Certificate;
use re_labels::Degrees;
use re_problem::{InputFault, Problem, TextFault, begins_section, is_empty_line};
use std::alloc::Global;

/// A message that is to be delivered, and the line of the input that says so.
#[derive(Clone, Copy, Debug)]
pub struct Delivery {
    /// The message.
    pub message: Message,
    /// The line, from 1.
    pub line: u32,
}

/// What was read behind some lines, from the end of the certificate on: nothing, `== tree`, the tree so far, or the tree and the
/// deliveries so far.
#[derive(Drop)]
pub(crate) enum Place {
    Behind,
    Root,
    Tree(Tree),
    Deliveries(Tree, Vec<Delivery>),
}

// The degrees of a problem.
fn degrees_in(problem: &Problem) -> Degrees
    ensures degrees { result ≡ degrees_of problem.now }
    ensures active { (2 ≤ result.active) × (result.active ≤ 6) }
    ensures passive { (2 ≤ result.passive) × (result.passive ≤ 6) }
{
    Degrees {
        active: problem.active().degree(),
        passive: problem.passive().degree(),
    }
}

// A line between the certificate and the tree.
fn behind_line(number: u32, line: &[u8]) -> Result<Place, TextFault>
    ensures { (bound : Bound) (byte : ℕ) → Holds bound (judged_in byte number (BehindEnd bound) line.now) result }
{
    if is_empty_line(line) {
        return Ok(Place::Behind);
    }
    match read_section(line) {
        Section::Tree => Ok(Place::Root),
        _ => Err(TextFault::Bad(InputFault::BadSection(number))),
    }
}

// The first line of the tree, or an empty one before it.
fn root_line(
    alloc: Global,
    degrees: Degrees,
    byte: u32,
    number: u32,
    line: &[u8],
) -> Result<Place, TextFault>
    requires active { (2 ≤ degrees.active) × (degrees.active ≤ 6) }
    requires passive { (2 ≤ degrees.passive) × (degrees.passive ≤ 6) }
    requires within { byte + length line.now ≤ MAX_BYTES }
    ensures { (bound : Bound) → degrees ≡ degrees_of bound.first → Holds bound (judged_in byte number (AtRoot bound) line.now) result }
{
    if begins_section(line) {
        return match read_section(line) {
            Section::Deliveries => Err(TextFault::Bad(InputFault::BadItem(number))),
            _ => Err(TextFault::Bad(InputFault::BadSection(number))),
        };
    }
    if is_empty_line(line) {
        return Ok(Place::Root);
    }
    if let Some(place) = first_strange_byte(line) {
        return Err(TextFault::Bad(InputFault::BadByte(byte + place as u32)));
    }
    let Some(root) = read_root(line) else {
        return Err(TextFault::Bad(InputFault::BadItem(number)));
    };
    match Tree::new(alloc, degrees, root) {
        Ok(tree) => Ok(Place::Tree(tree)),
        Err(_) => Err(TextFault::NoMemory),
    }
}

// The section line of this section behind the tree.
fn end_tree(alloc: Global, tree: Tree, section: Section, number: u32) -> Result<Place, TextFault>
    ensures { (bound : Bound) → tree.degrees ≡ degrees_of bound.first → Holds bound (tree_ends bound tree number section) result }
{
    match section {
        Section::Deliveries => {
            if tree.numbered() {
                Ok(Place::Deliveries(tree, Vec::new(alloc)))
            } else {
                Err(TextFault::Bad(InputFault::BadEntry(number)))
            }
        }
        _ => Err(TextFault::Bad(InputFault::BadSection(number))),
    }
}

// One node more.
fn add_node(tree: Tree, number: u32, to: u32, port: u32, own: u32) -> Result<Place, TextFault>
    ensures { (bound : Bound) → tree.degrees ≡ degrees_of bound.first → Holds bound (joins bound tree number (record { to = to; port = port; own = own })) result }
{
    // no side has so many ports
    if port > 255 || own > 255 {
        return Err(TextFault::Bad(InputFault::BadEntry(number)));
    }
    let mut tree = tree;
    match tree.join(to, port as u8, own as u8) {
        Ok(()) => Ok(Place::Tree(tree)),
        Err(JoinFault::NoPlace) => Err(TextFault::Bad(InputFault::BadEntry(number))),
        Err(JoinFault::TooManyNodes) => Err(TextFault::Bad(InputFault::TooManyNodes(number))),
        Err(JoinFault::NoMemory) => Err(TextFault::NoMemory),
    }
}

// A line of the tree behind the first one.
fn tree_line(
    alloc: Global,
    tree: Tree,
    byte: u32,
    number: u32,
    line: &[u8],
) -> Result<Place, TextFault>
    requires within { byte + length line.now ≤ MAX_BYTES }
    ensures { (bound : Bound) → tree.degrees ≡ degrees_of bound.first → Holds bound (judged_in byte number (InTree bound tree) line.now) result }
{
    if begins_section(line) {
        return end_tree(alloc, tree, read_section(line), number);
    }
    if is_empty_line(line) {
        return Ok(Place::Tree(tree));
    }
    if let Some(place) = first_strange_byte(line) {
        return Err(TextFault::Bad(InputFault::BadByte(byte + place as u32)));
    }
    let Some((to, port, own)) = read_three(line) else {
        return Err(TextFault::Bad(InputFault::BadItem(number)));
    };
    add_node(tree, number, to, port, own)
}

// Whether it is a message of the tree, with a number below the bound.
fn can_send(tree: &Tree, bound: usize, from: u32, port: u32, number: u32) -> bool
    ensures test { result ≡ can_be_sent tree.now bound (record { from = from; port = port; number = number }) }
    ensures port { result ≡ true → port ≤ 255 }
{
    if from >= tree.len() {
        return false;
    }
    let degrees = tree.degrees();
    let most = degrees.of(tree.side(from));
    if port > u32::from(most) {
        return false;
    }
    if number as usize >= bound {
        return false;
    }
    tree.neighbour(from, port as u8).is_some()
}

// One delivery more.
fn add_delivery(
    tree: Tree,
    deliveries: Vec<Delivery>,
    steps: usize,
    line: u32,
    from: u32,
    port: u32,
    number: u32,
) -> Result<Place, TextFault>
    requires few { steps ≤ MAX_STEPS }
    ensures { (bound : Bound) → length bound.steps ≡ steps → Fits bound (Place.Deliveries tree deliveries)
        → Holds bound (delivers bound tree deliveries.items line (record { from = from; port = port; number = number })) result }
{
    if !can_send(&tree, steps, from, port, number) {
        return Err(TextFault::Bad(InputFault::BadEntry(line)));
    }
    let mut deliveries = deliveries;
    let message = Message {
        from,
        port: port as u8,
        number: number as u8,
    };
    match deliveries.push(Delivery { message, line }) {
        Ok(()) => Ok(Place::Deliveries(tree, deliveries)),
        Err(_) => Err(TextFault::NoMemory),
    }
}

// A line of the deliveries.
fn delivery_line(
    tree: Tree,
    deliveries: Vec<Delivery>,
    steps: usize,
    byte: u32,
    number: u32,
    line: &[u8],
) -> Result<Place, TextFault>
    requires few { steps ≤ MAX_STEPS }
    requires within { byte + length line.now ≤ MAX_BYTES }
    ensures { (bound : Bound) → length bound.steps ≡ steps → Fits bound (Place.Deliveries tree deliveries)
        → Holds bound (judged_in byte number (InDeliveries bound tree deliveries.items) line.now) result }
{
    if begins_section(line) {
        return Err(TextFault::Bad(InputFault::BadSection(number)));
    }
    if is_empty_line(line) {
        return Ok(Place::Deliveries(tree, deliveries));
    }
    if let Some(place) = first_strange_byte(line) {
        return Err(TextFault::Bad(InputFault::BadByte(byte + place as u32)));
    }
    let Some((from, port, message)) = read_three(line) else {
        return Err(TextFault::Bad(InputFault::BadItem(number)));
    };
    add_delivery(tree, deliveries, steps, number, from, port, message)
}

// A line that is judged.
fn judge_in(
    alloc: Global,
    certificate: &Certificate,
    place: Place,
    byte: u32,
    number: u32,
    line: &[u8],
) -> Result<Place, TextFault>
    requires within { byte + length line.now ≤ MAX_BYTES }
    requires fits { Fits certificate.now place }
    ensures { Holds certificate.now (judged_in byte number (state_of certificate.now place) line.now) result }
{
    match place {
        Place::Behind => behind_line(number, line),
        Place::Root => root_line(alloc, degrees_in(certificate.first()), byte, number, line),
        Place::Tree(tree) => tree_line(alloc, tree, byte, number, line),
        Place::Deliveries(tree, deliveries) => {
            let steps = certificate.steps().len();
            delivery_line(tree, deliveries, steps, byte, number, line)
        }
    }
}

// Whether the line is judged: an unfinished one is where it is `== deliveries`, and among the deliveries.
fn is_judged(place: &Place, line: &[u8], ended: bool) -> bool
    ensures { (bound : Bound) → result ≡ (ended || is_deliveries line.now || in_deliveries (state_of bound place.now)) }
{
    ended || is_deliveries_line(line) || matches!(place, Place::Deliveries(_, _))
}

/// What is held behind one more line, which stands at this byte and has this number.
pub(crate) fn judge(
    alloc: Global,
    certificate: &Certificate,
    place: Place,
    byte: u32,
    number: u32,
    line: &[u8],
    ended: bool,
) -> Result<Place, TextFault>
    requires within { byte + length line.now ≤ MAX_BYTES }
    requires fits { Fits certificate.now place }
    ensures { Holds certificate.now (judged byte number (state_of certificate.now place) (record { text = line.now; ended = ended })) result }
{
    if is_judged(&place, line, ended) {
        judge_in(alloc, certificate, place, byte, number, line)
    } else {
        Ok(place)
    }
}
