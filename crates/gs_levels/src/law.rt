//! What holds of every graph.
ghost use Rattle.std.specs.Prelude.{◌≡◌, ◌⊎◌, ℕ, List};
ghost use Rattle.gs_levels.specs.Graph.{IsWithin};
ghost use Rattle.gs_levels.specs.Levels.{HasLevels, HasCycle, IsLeveled, IsOrder};
ghost use Rattle.gs_levels.specs.declared.edges.Edge.{Edge};

/// Each graph whose edges lead from and to its nodes has levels or a cycle, and never both; its levels are one list, and so is
/// the order of its nodes.
pub fn each_graph_is_decided()
    ensures decided { (nodes : ℕ) (edges : List Edge) → IsWithin nodes edges → HasLevels nodes edges ⊎ HasCycle edges }
    ensures apart { (nodes : ℕ) (edges : List Edge) → IsWithin nodes edges → HasLevels nodes edges → HasCycle edges → ⊥ }
    ensures one_leveling { (nodes : ℕ) (edges : List Edge) (level other : List ℕ) → IsLeveled nodes edges level → IsLeveled nodes edges other → level ≡ other }
    ensures one_order { (level order other : List ℕ) → IsOrder level order → IsOrder level other → order ≡ other }
{}
