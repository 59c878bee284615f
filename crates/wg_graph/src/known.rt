use wg_graph_rules::Examined;
use wg_units::Levels;

/// What is known of a graph that keeps the rules: its targets and depths, and the levels of its nodes.
#[derive(Drop)]
pub struct Known {
    pub graph: Examined,
    pub levels: Levels,
}
