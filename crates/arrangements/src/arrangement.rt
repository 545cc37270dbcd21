//! A bag of nodes in one order, and the next order behind it.

ghost use Rattle.std.specs.Prelude.{◌≡◌, ◌<◌, ◌↔◌, ◌+◌, false, ◌++◌, length, take, drop, reverse, swap, IfOk, MatchOption};
ghost use Rattle.std.specs.Bool.{OnTrue, OnFalse};
ghost use Rattle.arrangements.specs.Arrangements.{IsFirst, IsLast, IsNext};
ghost use Rattle.arrangements.specs.Falling.{FallsFrom, IsLastRise, IsLastAbove};

use rdf_terms::NoMemory;
use std::alloc::Global;
use std::marker::Model;

/// An arrangement of a bag of nodes: all its nodes, each as often as it is in the bag.
#[derive(Debug, Drop)]
pub struct Arrangement {
    nodes: Vec<u32>,
}

impl Model for Arrangement {
    ghost use Rattle.std.specs.Prelude.{ℕ, List};

    ghost Value = { List ℕ };

    ghost view = { λ a. a.nodes.items };
}

impl Arrangement {
    /// The first arrangement of the bag in lexicographic order, which is the ascending one.
    pub fn first(alloc: Global, bag: &[u32]) -> Result<Self, NoMemory>
        ensures { IfOk result (IsFirst bag.now) }
    {
        let mut nodes = bag.to_vec(alloc)?;
        nodes.sort_unstable();
        Ok(Arrangement { nodes })
    }

    pub fn nodes(&self) -> &[u32]
        ensures { result.now ≡ self.now }
    {
        self.nodes.as_slice()
    }

    /// Moves to the next distinct arrangement in lexicographic order, and answers whether there is
    /// one. It takes no memory.
    pub fn next(&mut self) -> bool
        ensures moves { OnTrue result (IsNext self.old self.new) }
        ensures last { (result ≡ false) ↔ IsLast self.old }
        ensures unchanged { OnFalse result (self.new ≡ self.old) }
    {
        advance(self.nodes.as_mut_slice())
    }
}

fn advance(nodes: &mut [u32]) -> bool
    ensures moves { OnTrue result (IsNext nodes.old nodes.new) }
    ensures last { (result ≡ false) ↔ IsLast nodes.old }
    ensures unchanged { OnFalse result (nodes.new ≡ nodes.old) }
{
    let Some(at) = last_rise(nodes) else {
        return false;
    };
    let other = last_above(nodes, at);
    exchange(nodes, at, other);
    true
}

// The last place whose node is below the next one.
fn last_rise(nodes: &[u32]) -> Option<usize>
    ensures { MatchOption result (FallsFrom nodes.now 0) (IsLastRise nodes.now) }
{
    for after in (1..nodes.len()).rev() {
        if nodes[after - 1] < nodes[after] {
            return Some(after - 1);
        }
    }
    None
}

// The last place whose node is above the one at the last rise.
fn last_above(nodes: &[u32], at: usize) -> usize
    requires { IsLastRise nodes.now at }
    ensures { IsLastAbove nodes.now at result }
{
    let mut other = nodes.len() - 1;
    while nodes[other] <= nodes[at] {
        other -= 1;
    }
    other
}

// Exchanges two nodes, and turns round what stands behind the first of them.
fn exchange(nodes: &mut [u32], at: usize, other: usize)
    requires before { at < other }
    requires within { other < length nodes.old }
    ensures { nodes.new ≡ take (at + 1) (swap nodes.old at other) ++ reverse (drop (at + 1) (swap nodes.old at other)) }
{
    nodes.swap(at, other);
    nodes[at + 1..].reverse();
}
