//! The state of a store, the rows that a table keeps of it, and the change of rows where a feature
//! comes, goes or takes the place of another.
#![tactic(auto)]

mod change;
mod exchange;
mod laws;

pub use change::batch_of;
pub use exchange::{Exchange, batch_of_all};
pub use laws::{
    a_new_type_has_no_rows, changes_are_counted, changes_keep_the_state, exchanges_keep_the_state,
    rows_are_of_features, rows_follow_a_change, rows_follow_exchanges,
};
