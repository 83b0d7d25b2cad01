//! Full expressions under evaluation (ISO/IEC 9899:2011, 6.8p4): results, and nodes that wait for their operands, in postfix order.
#![tactic(auto)]

mod expression;
mod laws;
mod locks;
mod results;
mod trees;
mod waiting;

pub use expression::Expression;
pub use laws::{
    chosen_operands_stand_in_place, expressions_begin, holes_stay_where_nodes_were_taken,
    moves_are_chosen, results_fill_holes, results_stand_in_place, taken_nodes_move,
};
pub use results::{Results, Taken};
pub use trees::put;
pub use waiting::{Doing, Operands, Waiting, open_operands};
