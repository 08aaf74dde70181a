//! What a run of C keeps: bytes by address, and the live objects (C99 6.2.4, 6.2.6). The definitions stand in `specs/`,
//! their laws in `proofs/`.
#![tactic(auto)]

mod object;

pub use object::{Object, ObjectKind};
