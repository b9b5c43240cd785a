//! Why a job came to no answer.
ghost use Rattle.std.specs.Prelude.{◌≡◌};
ghost use Rattle.job_text.specs.Fault.{ends_text, fault_line, input_line, line_text_or_none, status_of};
ghost use Rattle.job_text.specs.declared.fault.Fault.TheVariants.{Input, Memory};

use crate::line::Line;
use crate::status::{INPUT_REFUSED, NO_MEMORY, READ_FAILED, WORDS_REFUSED};
use gr_reader::{GrFault, Section};
use std::alloc::AllocError;
use thiserror::Error;

/// The first of the faults that the words and the input have, or want of memory.
#[derive(Clone, Copy, Debug, PartialEq, Eq, Drop, Error)]
pub enum Fault {
    /// The words name no job.
    #[error("the words name no job")]
    Words,
    /// The root is no node of the graph.
    #[error("the root {root} is not below {nodes}")]
    Root {
        /// The root that the words name.
        root: u32,
        /// The number of nodes of the graph.
        nodes: u32,
    },
    /// The bytes are no graph, or could not be read.
    #[error("{0}")]
    Input(GrFault),
    /// No memory for the answers.
    #[error("out of memory")]
    Memory,
}

impl From<GrFault> for Fault {
    ghost from_gives = { λ reading fault. fault ≡ Input reading };

    fn from(reading: GrFault) -> Fault {
        Fault::Input(reading)
    }
}

impl From<AllocError> for Fault {
    ghost from_gives = { λ _ fault. fault ≡ Memory };

    fn from(_error: AllocError) -> Fault {
        Fault::Memory
    }
}

impl Fault {
    /// The status with which the program ends.
    pub fn status(self) -> u8
        ensures { result ≡ status_of self }
    {
        match self {
            Fault::Words => WORDS_REFUSED,
            Fault::Root { .. } => INPUT_REFUSED,
            Fault::Input(GrFault::Read) => READ_FAILED,
            Fault::Input(GrFault::Memory) | Fault::Memory => NO_MEMORY,
            Fault::Input(_) => INPUT_REFUSED,
        }
    }

    /// The line that is written for it: none for want of memory.
    pub(crate) fn line(self) -> Option<Line>
        ensures { line_text_or_none result ≡ fault_line self }
    {
        match self {
            Fault::Words => Some(Line::Text("fault: words")),
            Fault::Root { root, nodes } => Some(Line::AroundAndEndsWithNumber(
                "fault: root ",
                u64::from(root),
                " of",
                u64::from(nodes),
            )),
            Fault::Input(fault) => line_of_input(fault),
            Fault::Memory => None,
        }
    }
}

/// The line of a fault of the input.
fn line_of_input(fault: GrFault) -> Option<Line>
    ensures { line_text_or_none result ≡ input_line fault }
{
    let line = match fault {
        GrFault::Ends { section, got } => Line::AroundNumber(text_of_end(section), got, " bytes"),
        GrFault::Version(version) => Line::EndsWithNumber("fault: version", version),
        GrFault::EdgeSize(size) => Line::EndsWithNumber("fault: edge size", size),
        GrFault::Nodes(nodes) => Line::EndsWithNumber("fault: nodes", nodes),
        GrFault::Edges(edges) => Line::EndsWithNumber("fault: edges", edges),
        GrFault::IndexFalls(node) => Line::AroundNumber("fault: index ", u64::from(node), " falls"),
        GrFault::IndexEnds { got, want } => Line::AroundAndEndsWithNumber(
            "fault: index ends at ",
            got,
            " of",
            want,
        ),
        GrFault::Destination { edge, dst } => {
            Line::AroundAndEndsWithNumber(
                "fault: edge ",
                u64::from(edge),
                " goes to",
                u64::from(dst),
            )
        }
        GrFault::Read => Line::Text("fault: read"),
        GrFault::Memory => return None,
    };
    Some(line)
}

/// The line of an input that ends in this section, up to the number of bytes.
fn text_of_end(section: Section) -> &'static str
    ensures { result.now ≡ ends_text section }
{
    match section {
        Section::Head => "fault: input ends in head after ",
        Section::Index => "fault: input ends in index after ",
        Section::Destinations => "fault: input ends in destinations after ",
        Section::Padding => "fault: input ends in padding after ",
        Section::Weights => "fault: input ends in weights after ",
    }
}
