//! Operators and collectors of any kind: which a flow has is told only when it is read.
#![tactic(auto)]

mod any_collector;
mod any_operator;
mod by_row;
mod collecting;
mod keyed;
mod making;
mod parts;
mod row_operator;

pub use any_collector::AnyCollector;
pub use any_operator::AnyOperator;
pub use collecting::make_collector;
pub use making::make_operator;
pub use row_operator::RowOperator;
