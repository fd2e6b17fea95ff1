//! Theorems on the definitions.

ghost use Rattle.std.specs.Prelude.{◌≡◌, ℕ, List};
ghost use Rattle.graph.specs.Entry.{Entry, FitsLimits, IsProper};
ghost use Rattle.graph.specs.Graph.{IsGraphText, IsWithinLimits};

/// Shows that a text means at most one graph. Its ids rise, and its ids and targets are in range. Where the text is
/// within the limits, so is the graph.
pub fn means_one_graph()
    ensures one { (text : List ℕ) (first second : List Entry)
        → IsGraphText text first → IsGraphText text second → first ≡ second }
    ensures proper { (text : List ℕ) (graph : List Entry)
        → IsGraphText text graph → IsProper graph }
    ensures limits { (text : List ℕ) (graph : List Entry) → IsGraphText text graph
        → IsWithinLimits text → FitsLimits graph }
{}
