//! Gadgets in parallel between two nodes.
use crate::gadgets::{Allowed, Gadget};
use crate::joining::{NodeEnds, node_ends, push_parallels};
use crate::searching::Search;
use re_labels::{NoMemory, Side};

// Whether the gadget is a node with three free ends.
fn is_triple(gadget: &Gadget) -> bool {
    matches!(&gadget.allowed, Allowed::Node(_, 3, _))
}

// Whether it is a strand.
fn is_strand(gadget: &Gadget) -> bool {
    matches!(&gadget.allowed, Allowed::Strand(_, _, _, _))
}

// The two nodes, an active one first where there is one.
fn in_order<'a>(left: NodeEnds<'a>, right: NodeEnds<'a>) -> (NodeEnds<'a>, NodeEnds<'a>) {
    if left.side == Side::Passive && right.side == Side::Active {
        (right, left)
    } else {
        (left, right)
    }
}

impl Search {
    // What two strands make in parallel between two nodes.
    fn parallel(
        &self,
        nodes: (usize, usize),
        strands: (usize, usize),
    ) -> Result<Vec<Gadget>, NoMemory> {
        let mut made = Vec::new(self.alloc);
        let (Some(left), Some(right)) = (self.numbered(nodes.0), self.numbered(nodes.1)) else {
            return Ok(made);
        };
        let (Some(first), Some(second)) = (self.numbered(strands.0), self.numbered(strands.1))
        else {
            return Ok(made);
        };
        let (Some(left), Some(right)) = (node_ends(left), node_ends(right)) else {
            return Ok(made);
        };
        let inner = first.gadget.nodes.saturating_add(second.gadget.nodes);
        let all = inner.saturating_add(left.nodes).saturating_add(right.nodes);
        push_parallels(
            self.alloc,
            &mut made,
            in_order(left, right),
            all,
            first,
            second,
        )?;
        Ok(made)
    }

    // Takes in what they make.
    fn take_parallel(
        &mut self,
        nodes: (usize, usize),
        strands: (usize, usize),
    ) -> Result<(), NoMemory> {
        if self.is_spent() {
            return Ok(());
        }
        let many = self.breadth(nodes.0).saturating_add(self.breadth(nodes.1));
        let labels = usize::from(self.labels);
        self.count(many.saturating_mul(24).saturating_mul(labels));
        let made = self.parallel(nodes, strands)?;
        self.take_in(made)
    }

    // The kept gadgets of one kind, in the order in which they are kept.
    fn kept_where(&self, triples: bool) -> Result<Vec<usize>, NoMemory> {
        let mut places = Vec::new(self.alloc);
        for place in self.kept.as_slice() {
            let Some(gadget) = self.gadgets.as_slice().get(*place) else {
                continue;
            };
            if (triples && is_triple(gadget)) || (!triples && is_strand(gadget)) {
                places.push(*place)?;
            }
        }
        Ok(places)
    }

    // The same with each two of these.
    fn take_all(&mut self, place: usize, strand: bool) -> Result<(), NoMemory> {
        let triples = self.kept_where(true)?;
        let strands = self.kept_where(false)?;
        let (fixed, free) = if strand {
            (strands, triples)
        } else {
            (triples, strands)
        };
        for one in fixed.as_slice() {
            for (count, first) in free.iter().enumerate() {
                for second in free.iter().take(count.saturating_add(1)) {
                    if strand {
                        self.take_parallel((*first, *second), (place, *one))?;
                    } else {
                        self.take_parallel((place, *one), (*first, *second))?;
                    }
                }
            }
        }
        Ok(())
    }

    /// Joins a kept gadget to all kept ones in parallel: a strand to each strand between each two nodes, and a node to each node by each two strands.
    pub(crate) fn parallel_all(&mut self, place: usize) -> Result<(), NoMemory> {
        let Some(gadget) = self.gadgets.as_slice().get(place) else {
            return Ok(());
        };
        if is_strand(gadget) {
            return self.take_all(place, true);
        }
        if is_triple(gadget) {
            return self.take_all(place, false);
        }
        Ok(())
    }
}
