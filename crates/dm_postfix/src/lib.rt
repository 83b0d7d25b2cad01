//! Expressions under evaluation in postfix order (ISO/IEC 9899:2011, 6.5): which nodes may be evaluated next, what stands in front of them
//! and behind them, and that these are the steps of the abstract machine that `dm_meaning` defines. It has definitions and laws, and no
//! code.
#![tactic(auto)]

mod laws;

pub use laws::{
    items_stand_for_their_hole, items_stand_for_their_tree, locks_are_those_of_results,
    parts_are_put_in, ready_nodes_are_counted, ready_nodes_are_moves,
    what_has_no_ready_node_is_evaluated,
};
