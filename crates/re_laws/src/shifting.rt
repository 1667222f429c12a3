//! The view of a neighbour.
ghost use Rattle.re_laws.specs.Shown.{tree_of_branch, tree_of_children, tree_of_view};
ghost use Rattle.re_laws.specs.Trees.{IsTree, IsView, cut, others, shift};
ghost use Rattle.std.specs.Prelude.{IfOk, length, pred, suc, ℕ, ◌<◌, ◌≡◌, ◌≤◌};

use crate::copying::copy_children;
use crate::{Branch, Child, View};
use re_labels::NoMemory;
use std::alloc::Global;

/// The view that the neighbour on the port has, with a radius less by one. The view is one of a radius of
/// at least 1, for some degrees, with a child at that port; ports count from 1. At radius 0 the answer is
/// the leaf. Else its child at the back port of that child has the port as back port, the payload of the
/// edge, and as branch the other children of the view, cut; its other children are those of the branch
/// behind the port, in order. It costs as much as a copy of the view.
pub fn shift<E: Copy>(alloc: Global, view: &View<E>, port: u8) -> Result<View<E>, NoMemory>
    requires port { 1 ≤ port }
    requires view { (d e t : ℕ) × (2 ≤ d) × (2 ≤ e) × (port ≤ d) × IsView d e (suc t) (tree_of_view view.now) }
    ensures { IfOk result (λ answer. (d e t : ℕ) → 2 ≤ d → 2 ≤ e → IsView d e (suc t) (tree_of_view view.now) →
        tree_of_view answer ≡ shift t (tree_of_view view.now) port) }
{
    match view {
        View::Leaf => Ok(View::Leaf),
        View::Node(children) => {
            let index = usize::from(port) - 1;
            let child = &children[index];
            match &child.branch {
                Branch::Leaf => Ok(View::Leaf),
                Branch::Node(beyond) => {
                    let branch = behind(alloc, children, index, beyond)?;
                    let mut answer = copy_children(alloc, beyond)?;
                    let turned = Child {
                        back: port,
                        payload: child.payload,
                        branch,
                    };
                    answer.insert(usize::from(child.back) - 1, turned)?;
                    Ok(View::Node(answer))
                }
            }
        }
    }
}

/// The other children, cut to be as deep as the branches of the children `beyond`.
fn behind<E: Copy>(
    alloc: Global,
    children: &Vec<Child<E>>,
    index: usize,
    beyond: &Vec<Child<E>>,
) -> Result<Branch<E>, NoMemory>
    requires index { index < length children.now.items }
    requires beyond { (d e t n : ℕ) × (2 ≤ d) × (2 ≤ e) × (1 ≤ n) × IsTree d e (suc t) n (tree_of_children beyond.now.items) }
    ensures { IfOk result (λ answer. (d e t n : ℕ) → 2 ≤ d → 2 ≤ e → 1 ≤ n → IsTree d e (suc t) n (tree_of_children beyond.now.items) →
        tree_of_branch answer ≡ cut t (others index (tree_of_children children.now.items))) }
{
    let first = &beyond[0];
    match cut_like(alloc, children, &first.branch)? {
        Branch::Leaf => Ok(Branch::Leaf),
        Branch::Node(mut rest) => {
            rest.remove(index);
            Ok(Branch::Node(rest))
        }
    }
}

/// The children, cut to be as deep as the branch `rule`.
#[cycle(cut_like)]
fn cut_like<E: Copy>(
    alloc: Global,
    children: &Vec<Child<E>>,
    rule: &Branch<E>,
) -> Result<Branch<E>, NoMemory>
    ensures { IfOk result (λ answer. (d e t n : ℕ) → 2 ≤ d → 2 ≤ e → 1 ≤ n → IsTree d e t n (tree_of_branch rule.now) →
        tree_of_branch answer ≡ cut t (tree_of_children children.now.items)) }
{
    match rule {
        Branch::Leaf => Ok(Branch::Leaf),
        Branch::Node(below) => match below.first() {
            None => Ok(Branch::Leaf),
            Some(first) => {
                let kept = cut_each(alloc, children, &first.branch)?;
                Ok(Branch::Node(kept))
            }
        },
    }
}

/// The children, with each branch cut to be as deep as the branch `rule`.
#[cycle(cut_like)]
fn cut_each<E: Copy>(
    alloc: Global,
    children: &Vec<Child<E>>,
    rule: &Branch<E>,
) -> Result<Vec<Child<E>>, NoMemory>
    ensures { IfOk result (λ answer. (d e t n : ℕ) → 2 ≤ d → 2 ≤ e → 1 ≤ n → IsTree d e t n (tree_of_branch rule.now) →
        tree_of_children answer.items ≡ cut (suc t) (tree_of_children children.now.items)) }
{
    let mut kept = Vec::new(alloc);
    for child in children {
        let branch = cut_branch_like(alloc, &child.branch, rule)?;
        kept.push(Child {
            back: child.back,
            payload: child.payload,
            branch,
        })?;
    }
    Ok(kept)
}

/// The branch, cut to be as deep as the branch `rule`.
#[cycle(cut_like)]
fn cut_branch_like<E: Copy>(
    alloc: Global,
    branch: &Branch<E>,
    rule: &Branch<E>,
) -> Result<Branch<E>, NoMemory>
    ensures { IfOk result (λ answer. (d e t n : ℕ) → 2 ≤ d → 2 ≤ e → 1 ≤ n → IsTree d e t n (tree_of_branch rule.now) →
        tree_of_branch answer ≡ cut t (tree_of_branch branch.now)) }
{
    match branch {
        Branch::Leaf => Ok(Branch::Leaf),
        Branch::Node(children) => cut_like(alloc, children, rule),
    }
}
