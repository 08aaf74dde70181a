//! Summaries.
use core_tree::ValueType;
use path_states::State;
use plain_data::Items;

/// The ends of a function's body from one position in the log: states over the entry's memory, the parameters, which
/// are stored as values of these types, and the base.
#[derive(Drop)]
pub struct Summary {
    pub parameters: Items<ValueType>,
    pub states: Items<State>,
}
