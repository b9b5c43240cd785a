//! What is written is read again.
ghost use Rattle.std.specs.Prelude.{ℕ, List};
ghost use Rattle.graph_model.specs.Graph.{Graph};
ghost use Rattle.gr_writer.specs.ReadAgain.{IsReadAgain};

/// A file that `write_graph` writes means the graph again, whatever bytes follow it. This does nothing: the fact is
/// its contract.
pub fn file_is_read_again()
    ensures { (size : ℕ) (graph : Graph) (after : List ℕ) → IsReadAgain size graph after }
{}
