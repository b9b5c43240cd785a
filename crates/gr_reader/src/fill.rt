//! Reads of whole pieces.
ghost use Rattle.std.specs.Prelude.{◌≡◌, ◌<◌, ◌≤◌, [], length, take, IfOk, IfSome, OnOk, OnErr};
ghost use Rattle.io_edge.specs.Faults.{Rose};
ghost use Rattle.io_edge.specs.Bytes.{Gives};
ghost use Rattle.gr_reader.specs.Reach.{TakesAtMost};

use io_edge::{Source, SourceFault};

/// Reads until `into` is full or the input ends, and answers how many bytes came.
pub(crate) fn fill<S: Source>(source: &mut S, into: &mut [u8]) -> Result<usize, SourceFault>
    ensures count { IfOk result (λ n. n ≤ length into.old) }
    ensures bytes { IfOk result (λ n. Gives (S.left source.old) (S.left source.new) (take n into.new)) }
    ensures end { IfOk result (λ n. n < length into.old → IfSome (S.left source.new) (λ bytes. bytes ≡ [])) }
    ensures taken { TakesAtMost (length into.old) (S.left source.old) (S.left source.new) }
    ensures quiet { OnOk result (S.faults source.new ≡ S.faults source.old) }
    ensures rose { OnErr result (Rose (S.faults source.old) (S.faults source.new)) }
{
    let mut filled = 0;
    while filled < into.len() {
        let came = source.read(&mut into[filled..])?;
        if came == 0 {
            break;
        }
        filled += came;
    }
    Ok(filled)
}
