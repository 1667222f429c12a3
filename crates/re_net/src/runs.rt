//! Deliveries made one after another on a net, and what its nodes output then.
ghost use Rattle.re_net.specs.FiniteTrees.{IsFiniteTree, IsNumbered};
ghost use Rattle.re_net.specs.Nets.{with_message};
ghost use Rattle.re_net.specs.declared.nets.TheConstants.{MAX_ROUNDS};
ghost use Rattle.re_net.specs.RunReading.{AreMessages};
ghost use Rattle.re_net.specs.Runs.{Comes, first_illegal, messages_of, standings_of};
ghost use Rattle.re_laws.specs.Trees.{Tree as View};
ghost use Rattle.std.specs.Prelude.{◌≡◌, ◌≤◌, [], IfOk, None, fold};

use crate::nets::Net;
use crate::reading::Delivery;
use crate::trees::Tree;
use re_labels::{NoMemory, PortLabels};
use re_pool::Rule;
use std::alloc::Global;

/// Where a node stands: its round, and the labels that it outputs, one for each port in order; None where it outputs none.
#[derive(Drop, Debug)]
pub struct Standing {
    /// The round.
    pub round: u8,
    /// The labels.
    pub labels: Option<PortLabels>,
}

/// What comes of deliveries.
#[derive(Drop)]
pub enum Run {
    /// The first one that isn't legal stands on this line.
    Illegal(u32),
    /// All are legal: where the nodes stand behind them, in order.
    Legal(Vec<Standing>),
}

// Makes the deliveries in order, up to the first one that isn't legal: the line on which it stands.
fn deliver_all(net: &mut Net, deliveries: &[Delivery]) -> Result<Option<u32>, NoMemory>
    requires none { net.old.delivered ≡ [] }
    requires messages { AreMessages net.old.tree net.old.bound deliveries.now }
    ensures tree { net.new.tree ≡ net.old.tree }
    ensures bound { net.new.bound ≡ net.old.bound }
    ensures built { IsFiniteTree net.old.tree }
    ensures illegal { IfOk result (λ line. line ≡ first_illegal net.old.tree net.old.bound [] deliveries.now) }
    ensures delivered { IfOk result (λ line. line ≡ None → net.new.delivered ≡ fold with_message [] (messages_of deliveries.now)) }
{
    let _nodes = net.tree().len();
    for delivery in deliveries {
        let message = delivery.message;
        if message.number > net.round(message.from) {
            return Ok(Some(delivery.line));
        }
        net.deliver(message.from, message.port, message.number)?;
    }
    Ok(None)
}

// Where each node stands, in order.
fn standings<R: Rule>(alloc: Global, net: &mut Net, rule: &mut R) -> Result<Vec<Standing>, NoMemory>
    requires degrees { R.degrees rule.old ≡ net.old.tree.degrees }
    requires radius { R.radius rule.old ≡ net.old.bound }
    ensures standings { IfOk result (λ all. all.items ≡ standings_of net.old.tree net.old.bound net.old.delivered (R.answer rule.old)) }
    ensures rule_degrees { R.degrees rule.new ≡ R.degrees rule.old }
    ensures rule_radius { R.radius rule.new ≡ R.radius rule.old }
    ensures rule_answers { (v : View (Unit {0})) → R.answer rule.new v ≡ R.answer rule.old v }
{
    let mut all = Vec::new(alloc);
    for node in 0..net.tree().len() {
        let round = net.round(node);
        let labels = net.output(rule, node)?;
        all.push(Standing { round, labels })?;
    }
    Ok(all)
}

// Makes the deliveries in order on a net in which nothing is delivered, and asks its nodes for their outputs.
fn run_on<R: Rule>(
    alloc: Global,
    net: &mut Net,
    deliveries: &[Delivery],
    rule: &mut R,
) -> Result<Run, NoMemory>
    requires none { net.old.delivered ≡ [] }
    requires messages { AreMessages net.old.tree net.old.bound deliveries.now }
    requires degrees { R.degrees rule.old ≡ net.old.tree.degrees }
    requires radius { R.radius rule.old ≡ net.old.bound }
    ensures run { IfOk result (λ run. Comes net.old.tree net.old.bound deliveries.now (R.answer rule.old) run) }
    ensures rule_degrees { R.degrees rule.new ≡ R.degrees rule.old }
    ensures rule_radius { R.radius rule.new ≡ R.radius rule.old }
    ensures rule_answers { (v : View (Unit {0})) → R.answer rule.new v ≡ R.answer rule.old v }
{
    if let Some(line) = deliver_all(net, deliveries)? {
        return Ok(Run::Illegal(line));
    }
    let standings = standings(alloc, net, rule)?;
    Ok(Run::Legal(standings))
}

/// Makes the deliveries in order on a net of the tree in which nothing is delivered, and asks each node for its output by a rule of the
/// tree's degrees, whose radius is the bound. `Illegal` comes exactly where some delivery isn't legal behind those before it: the number
/// of its message is above the round of its node; it is the first one. Else each node has its round by the messages of the list, and the
/// rule's labels at its surroundings exactly where it is active, its round is the bound and its surroundings are full. The
/// rule's degrees, radius and answers stay.
///
/// The tree is numbered, the bound at most `MAX_ROUNDS`, and each delivery of a message of the tree with a number below the bound. It costs a
/// delivery of the net for each of them, and an output for each node.
pub fn run_net<R: Rule>(
    alloc: Global,
    tree: Tree,
    bound: u8,
    deliveries: &[Delivery],
    rule: &mut R,
) -> Result<Run, NoMemory>
    requires numbered { IsNumbered tree }
    requires few { bound ≤ MAX_ROUNDS }
    requires messages { AreMessages tree bound deliveries.now }
    requires degrees { R.degrees rule.old ≡ tree.degrees }
    requires radius { R.radius rule.old ≡ bound }
    ensures run { IfOk result (λ run. Comes tree bound deliveries.now (R.answer rule.old) run) }
    ensures rule_degrees { R.degrees rule.new ≡ R.degrees rule.old }
    ensures rule_radius { R.radius rule.new ≡ R.radius rule.old }
    ensures rule_answers { (v : View (Unit {0})) → R.answer rule.new v ≡ R.answer rule.old v }
{
    let mut net = Net::new(alloc, tree, bound)?;
    run_on(alloc, &mut net, deliveries, rule)
}
