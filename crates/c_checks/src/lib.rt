//! The rules of statements and programs (C99 6.8, 6.9), over what their parts say: exactly those of `c_means`, and
//! which of several broken ones is the refusal.
#![tactic(auto)]

mod calls;
mod cases;
mod found_labels;
mod labels;
mod library;
mod main_function;
mod order;
mod profile;
mod statements;
mod takings;

pub use calls::{body_call, filling_call, identity_call, log_call};
pub use cases::{Case, repeated_cases};
pub use found_labels::{block_labels, every_label, front_labels};
pub use labels::{Label, goto, labeled};
pub use library::is_library_function;
pub use main_function::is_main;
pub use order::{least_fault, lesser};
pub use profile::{filling_function, identity_function, identity_index, log_function, runs_body};
pub use statements::{
    SwitchSaid, bare_return, case_label, case_value, condition, default_label, misplaced_if,
    return_value, switch_value,
};
pub use takings::{PlainType, is_function_of, means_function_of};
