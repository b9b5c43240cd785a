//! The head of a file.
ghost use Rattle.std.specs.Prelude.{◌≡◌, ◌+◌, ◌≤◌, length, drop, MatchResult, Ok, Err, IfOk, IfErr, IfSome};
ghost use Rattle.gr_reader.specs.declared.section.Section.TheVariants as part;
ghost use Rattle.gr_reader.specs.Cause.{BytesOf, cause_of, IsOfHead};
ghost use Rattle.gr_reader.specs.File.{long_at, head_at};
ghost use Rattle.gr_reader.specs.Reading.{IsHead, Means, Counts};
ghost use Rattle.gr_reader.specs.Reach.{TakesAtMost};

use crate::fault::GrFault;
use crate::intake::next_piece;
use crate::reader::BUFFER_BYTES;
use crate::section::Section;
use graph_model::{MAX_EDGES, MAX_NODES};
use io_edge::Source;

/// The bytes of a head.
const HEAD_BYTES: usize = 32;

/// What the head of a file says.
#[derive(Clone, Copy, Debug, PartialEq, Eq)]
pub struct Head {
    /// The version of the format, which is 1.
    pub version: u64,
    /// The bytes of data of each edge: 0, or 4 for a weight.
    pub edge_size: u64,
    /// The number of nodes.
    pub nodes: u32,
    /// The number of edges.
    pub edges: u32,
}

/// The number of 8 bytes at this place.
fn long_of(bytes: &[u8], place: usize) -> u64
    requires { place + 8 ≤ length bytes.now }
    ensures { result ≡ long_at place bytes.now }
{
    match bytes[place..].split_first_chunk::<8>() {
        Some((front, _)) => u64::from_le_bytes(*front),
        None => unreachable!(),
    }
}

/// The head that these bytes have, of which there may be too few.
#[tactic(auto, unfolding(crate::specs::File::head_at))]
fn parsed_head(bytes: &[u8]) -> Result<Head, GrFault>
    ensures means { MatchResult result
        (λ head. head_at bytes.now ≡ Ok (head, drop 32 bytes.now))
        (λ fault. head_at bytes.now ≡ Err fault) }
    ensures accepted { IfOk result IsHead }
    ensures kind { IfErr result (λ fault. cause_of fault ≡ BytesOf part.Head) }
{
    if bytes.len() < HEAD_BYTES {
        return Err(GrFault::Ends {
            section: Section::Head,
            got: bytes.len() as u64,
        });
    }
    let version = long_of(bytes, 0);
    if version != 1 {
        return Err(GrFault::Version(version));
    }
    let edge_size = long_of(bytes, 8);
    if edge_size != 0 && edge_size != 4 {
        return Err(GrFault::EdgeSize(edge_size));
    }
    let nodes = long_of(bytes, 16);
    if nodes > MAX_NODES as u64 {
        return Err(GrFault::Nodes(nodes));
    }
    let edges = long_of(bytes, 24);
    if edges > MAX_EDGES as u64 {
        return Err(GrFault::Edges(edges));
    }
    Ok(Head {
        version,
        edge_size,
        nodes: nodes as u32,
        edges: edges as u32,
    })
}

/// Reads a head into the front of the buffer.
pub(crate) fn take_head<S: Source>(source: &mut S, buffer: &mut [u8]) -> Result<Head, GrFault>
    requires { length buffer.old ≡ BUFFER_BYTES }
    ensures means { IfSome (S.left source.old) (λ bytes.
        Means (λ head. head) result (S.left source.new) (head_at bytes)) }
    ensures accepted { IfOk result IsHead }
    ensures faults { IfErr result IsOfHead }
    ensures taken { TakesAtMost 32 (S.left source.old) (S.left source.new) }
    ensures counts { Counts result (S.faults source.old) (S.faults source.new) }
{
    let bytes = next_piece(source, buffer, HEAD_BYTES)?;
    parsed_head(bytes)
}
