//! What declarations and the heads of function definitions say (C99 6.7, 6.9): exactly the definitions of `c_language`.
#![tactic(auto)]

mod again;
mod beginnings;
mod completeness;
mod declarations;
mod declarators;
mod functions;
mod linkage;

pub use beginnings::{
    Begun, NamedMeans, declared_filled, declared_first, declared_plainly, declared_unfilled,
    object_in,
};
pub use completeness::tentative_type;
pub use declarations::{DeclarationSaid, declaration_says};
pub use declarators::{Declared, declares};
pub use functions::{FunctionSaid, function_says};
