//! Graphs made from a size and a number.
ghost use Rattle.std.specs.Prelude.{◌≡◌, ◌-◌, ◌^◌, ◌<◌, ◌≤◌, ◌++◌, map, IfOk, OnOk};
ghost use Rattle.std.specs.List.{range_with_len, sum_by};
ghost use Rattle.graph_maker.specs.Words.{state_at, words_from};
ghost use Rattle.graph_maker.specs.MadeGraph.{degree_of, ring_edge, drawn_edge, edges_by, made_graph};

use graph_model::{Edge, EdgeList};
use rand_xoshiro::SplitMix64;
use rand_xoshiro::rand_core::SeedableRng;
use rand_xoshiro::rand_core::utils::NextWord;
use std::alloc::{AllocError, Global};

/// Each node whose number is a multiple of this is a hub.
const HUB_STEP: u32 = 16;

/// How many edges start at a hub.
const HUB_DEGREE: u32 = 16;

/// How many edges start at each other node.
const DEGREE: u32 = 3;

/// First edges have this many weights, from 1 on.
const RING_WEIGHTS: u32 = 7;

/// Drawn edges have this many weights, from 1 on.
const DRAWN_WEIGHTS: u64 = 1000;

/// How many edges start at a node.
fn degree(node: u32) -> u32
    ensures { result ≡ degree_of node }
{
    if node % HUB_STEP == 0 {
        HUB_DEGREE
    } else {
        DEGREE
    }
}

/// How many edges a made graph of this many nodes has.
fn edge_count(size: u32) -> u32
    requires { size ≤ 1000000 }
    ensures { result ≡ sum_by degree_of (range_with_len 0 size) }
{
    DEGREE * size + (HUB_DEGREE - DEGREE) * size.div_ceil(HUB_STEP)
}

/// The edge from a node to the one after it.
fn edge_to_next(size: u32, node: u32) -> Edge
    requires within { node < size }
    requires few { size ≤ 1000000 }
    ensures { result ≡ ring_edge size node }
{
    Edge {
        src: node,
        dst: (node + 1) % size,
        weight: 1 + node % RING_WEIGHTS,
    }
}

/// The edge from a node that a word draws.
fn edge_by_word(size: u32, node: u32, word: u64) -> Edge
    requires { 0 < size }
    ensures { result ≡ drawn_edge size node word }
{
    Edge {
        src: node,
        dst: (word >> 32) as u32 % size,
        weight: 1 + (word % DRAWN_WEIGHTS) as u32,
    }
}

/// Adds edges from a node, one for each of the next words.
fn push_drawn(
    edges: &mut Vec<Edge>,
    words: &mut SplitMix64,
    size: u32,
    node: u32,
    count: u32,
) -> Result<(), AllocError>
    requires some { 0 < size }
    requires state_fits { words.old < 2 ^ 64 }
    ensures edges { OnOk result
        (edges.new.items
        ≡ edges.old.items ++ map (drawn_edge size node) (words_from words.old 0 count)) }
    ensures words { OnOk result (words.new ≡ state_at words.old count) }
{
    for i in 0..count {
        let word = words.next_word();
        edges.push(edge_by_word(size, node, word))?;
    }
    Ok(())
}

/// Adds all edges from a node.
fn push_edges(
    edges: &mut Vec<Edge>,
    words: &mut SplitMix64,
    size: u32,
    node: u32,
) -> Result<(), AllocError>
    requires within { node < size }
    requires few { size ≤ 1000000 }
    requires state_fits { words.old < 2 ^ 64 }
    ensures edges { OnOk result
        (edges.new.items
        ≡ edges.old.items ++ edges_by size node (words_from words.old 0 (degree_of node - 1))) }
    ensures words { OnOk result (words.new ≡ state_at words.old (degree_of node - 1)) }
{
    edges.push(edge_to_next(size, node))?;
    push_drawn(edges, words, size, node, degree(node) - 1)
}

/// The graph of this many nodes that comes from a number: this project's own, for trials and
/// measurements. From each node whose number is a multiple of 16 lead 16 edges, from each other 3.
/// The first leads to the next node, or from the last node to node 0, and weighs from 1 to 7. Each
/// further one is drawn by a word of SplitMix64 (Steele, Lea and Flood, OOPSLA 2014), started with the
/// number, and weighs from 1 to 1000. An error says that memory does not suffice.
pub fn make(alloc: Global, size: u32, number: u64) -> Result<EdgeList, AllocError>
    requires some { 1 ≤ size }
    requires few { size ≤ 1000000 }
    ensures made { IfOk result (λ list. list ≡ made_graph size number) }
{
    let mut edges = Vec::with_capacity(alloc, edge_count(size) as usize)?;
    let mut words = SplitMix64::seed_from_u64(number);
    for node in 0..size {
        push_edges(&mut edges, &mut words, size, node)?;
    }
    Ok(EdgeList::from_parts(size, edges))
}
