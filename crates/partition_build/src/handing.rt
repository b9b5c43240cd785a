//! Edges are handed out to their owners.
ghost use Rattle.std.specs.Prelude.{◌≡◌, ◌<◌, ◌≤◌, [], replicate, length, All, vec_len, IfOk, OnOk};
ghost use Rattle.graph_model.specs.Graph.{most_edges, IsWithin};
ghost use Rattle.partition_build.specs.Rooms.{contents, HandsOutBy, AreRooms};

use graph_model::Edge;
use share_plan::SharePlan;
use std::alloc::{AllocError, Global};

/// How many edges each host owns, where the owner of each edge is known.
fn counts(alloc: Global, hosts: u16, owners: &[u8]) -> Result<Vec<u32>, AllocError>
    requires few { length owners.now ≤ most_edges }
    requires hosts { All (λ owner. owner < hosts) owners.now }
    ensures { IfOk result (λ counts. vec_len counts ≡ hosts) }
{
    let mut counts = vec![in alloc; 0u32; usize::from(hosts)]?;
    for owner in owners {
        counts[usize::from(*owner)] += 1;
    }
    Ok(counts)
}

/// An empty room a host, with space for as many edges as it owns.
fn empty_rooms(alloc: Global, counts: &[u32]) -> Result<Vec<Vec<Edge>>, AllocError>
    ensures { IfOk result (λ rooms. contents rooms.items ≡ replicate (length counts.now) []) }
{
    let mut rooms = Vec::with_capacity(alloc, counts.len())?;
    for count in counts {
        rooms.push(Vec::with_capacity(alloc, *count as usize)?)?;
    }
    Ok(rooms)
}

/// Puts each edge into its owner's room, in file order.
fn hand_out(edges: &[Edge], owners: &[u8], rooms: &mut [Vec<Edge>]) -> Result<(), AllocError>
    requires long { length owners.now ≡ length edges.now }
    requires hosts { All (λ owner. owner < length rooms.old) owners.now }
    ensures { OnOk result (HandsOutBy owners.now edges.now rooms.old rooms.new) }
{
    for (place, edge) in edges.iter().enumerate() {
        rooms[usize::from(owners[place])].push(*edge)?;
    }
    Ok(())
}

/// A room a host, with the edges that it owns, in file order.
pub(crate) fn filled_rooms(
    alloc: Global,
    edges: &[Edge],
    plan: &SharePlan,
) -> Result<Vec<Vec<Edge>>, AllocError>
    requires few { length edges.now ≤ most_edges }
    requires within { All (IsWithin (length plan.now.masters)) edges.now }
    ensures { IfOk result (λ rooms. AreRooms plan.now edges.now rooms.items) }
{
    let owners = plan.owners(alloc, edges)?;
    let mut rooms = {
        let counts = counts(alloc, plan.masters().hosts(), &owners)?;
        empty_rooms(alloc, &counts)?
    };
    hand_out(edges, &owners, &mut rooms)?;
    Ok(rooms)
}
