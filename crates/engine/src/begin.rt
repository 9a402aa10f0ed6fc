// The state of a run before its first call.
ghost use Rattle.std.specs.Prelude.{◌≡◌, List, ℕ, ◌^◌, ◌<◌, length};
ghost use Rattle.marks.specs.Marked.{mark_words};
ghost use Rattle.graph.specs.WellFormed.{Bounds, Within};
ghost use Rattle.history.specs.Machine.{fresh};
ghost use Rattle.image.specs.Image.{load as load_of};
ghost use Rattle.image_tables.specs.Filling.{CanLoad};
ghost use Rattle.graph_tables.specs.Capacities.{Sized};
ghost use Rattle.history_calls.specs.Memory.{memory, tables_of};
ghost use Rattle.history_calls.specs.Represents.{Represents};

use history_calls::Store;
use image_tables::load;

/// Loads a start image that `image_check::check` has found sound: its graph, no step and no mark. Which words of the
/// tables hold the graph is left open. The journal and the words of the marks are not looked at.
pub fn begin(start: &[u32], vertices: &mut [u32], edges: &mut [u32]) -> Store
    requires { CanLoad start.now vertices.old edges.old }
    ensures { (b : Bounds) → (journal marks : List ℕ)
        → Sized b (tables_of result (memory vertices.new edges.new journal marks))
        → Within b (load_of start.now) → length journal < 2 ^ 32 → length marks ≡ mark_words
        → Represents b result (memory vertices.new edges.new journal marks)
        (fresh (load_of start.now)) }
{
    let head = load(start, vertices, edges);
    Store::start(head)
}
