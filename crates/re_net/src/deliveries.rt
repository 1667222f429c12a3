//! The bookkeeping of the messages delivered.
ghost use Rattle.re_net.specs.Marks.{IsInRoom, without_message};
ghost use Rattle.re_net.specs.Nets.{with_message};
ghost use Rattle.re_net.specs.Rounds.{is_delivered};
ghost use Rattle.std.specs.Prelude.{◌≡◌, ◌<◌, ◌+◌, ◌*◌, [], IfOk, not, true};

use crate::messages::Message;
use crate::port_sets::PortSet;
use re_labels::NoMemory;
use std::alloc::Global;
use std::marker::Model;

/// Which messages of nodes below `nodes`, over ports from 1 to 6 and with numbers below `bound`, are delivered: for each node and each number
/// one byte, which has the ports over which the node's message of this number is delivered. In a tree of n nodes there are 2(n - 1) messages
/// of each number, so this is a byte for each message at two nodes, and about half a byte at many. Contracts see the room and the messages
/// delivered in ascending order.
#[derive(Drop)]
pub(crate) struct Deliveries {
    nodes: u32,
    bound: u8,
    sets: Vec<PortSet>,
}

impl Model for Deliveries {
    ghost use Rattle.re_net.specs.Marks.{DeliveryState, marked};
    ghost use Rattle.std.specs.Prelude.{◌≡◌, ◌*◌, length};

    ghost Value = { DeliveryState };

    ghost view = { λ d. record { nodes = d.nodes; bound = d.bound; messages = marked d.nodes d.bound d.sets.items } };

    ghost invariant = { λ d. length d.sets.items ≡ d.nodes * d.bound };
}

// The place of the set of ports for a node's messages of a number.
fn place(bound: u8, node: u32, number: u8) -> usize
    requires { number < bound }
    ensures { result ≡ node * bound + number }
{
    node as usize * bound as usize + number as usize
}

impl Deliveries {
    /// Nothing is delivered. It takes a byte for each node and number.
    pub(crate) fn new(alloc: Global, nodes: u32, bound: u8) -> Result<Deliveries, NoMemory>
        ensures { IfOk result (λ deliveries. deliveries ≡ record { nodes = nodes; bound = bound; messages = [] }) }
    {
        let places = nodes as usize * bound as usize;
        let sets = vec![in alloc; PortSet::NONE; places]?;
        Ok(Deliveries { nodes, bound, sets })
    }

    /// Whether the message is delivered. It costs one look.
    pub(crate) fn contains(&self, message: Message) -> bool
        ensures { result ≡ is_delivered self.now.messages message.from message.port message.number }
    {
        if message.from >= self.nodes || message.number >= self.bound {
            return false;
        }
        if message.port == 0 || message.port > 6 {
            return false;
        }
        self.sets[place(self.bound, message.from, message.number)].has(message.port)
    }

    /// Marks the message as delivered, and says whether it was not before. It takes no memory.
    pub(crate) fn insert(&mut self, message: Message) -> bool
        requires { IsInRoom self.old.nodes self.old.bound message }
        ensures new { result ≡ not (is_delivered self.old.messages message.from message.port message.number) }
        ensures messages { self.new.messages ≡ with_message self.old.messages message }
        ensures nodes { self.new.nodes ≡ self.old.nodes }
        ensures bound { self.new.bound ≡ self.old.bound }
    {
        let at = place(self.bound, message.from, message.number);
        let ports = self.sets[at];
        self.sets[at] = ports.with(message.port);
        !ports.has(message.port)
    }

    /// Takes back the mark of a message that is delivered.
    pub(crate) fn remove(&mut self, message: Message)
        requires room { IsInRoom self.old.nodes self.old.bound message }
        requires held { is_delivered self.old.messages message.from message.port message.number ≡ true }
        ensures messages { self.new.messages ≡ without_message self.old.messages message }
        ensures nodes { self.new.nodes ≡ self.old.nodes }
        ensures bound { self.new.bound ≡ self.old.bound }
    {
        let index = place(self.bound, message.from, message.number);
        self.sets[index] = self.sets[index].without(message.port);
    }
}
