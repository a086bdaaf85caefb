//! Laws of all classes together: accepted documents, documents with protected variables, and that a formula has
//! a kernel.
#![tactic(auto)]

mod laws;

pub use laws::{
    accepted_law, autarky_law, existence_law, extension_law, found_law, one_kernel_under,
    protected_check_law, run_law, same_kept,
};
