// Polynomials in shares, in areas that a caller lends.
#![tactic(auto)]

pub mod column;
pub mod linear;
pub mod opening;
pub mod shared;

pub use column::{coefficient, coefficients, gather, scatter};
pub use linear::{commit_rows, multiply_add, respond_rows};
pub use opening::{open_coefficient, open_poly};
pub use shared::Shared;
