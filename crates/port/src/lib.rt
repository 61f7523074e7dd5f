// What other languages call, which crate port_c exports: nothing but calls. They take and return numbers and what pointers lead to: a record crosses as rows of numbers, which every machine and
// language reads alike.
#![tactic(auto)]

pub mod abi; // abi.rt: the number of this interface
pub mod elementary; // elementary.rt: square root, hypotenuse, ln, exp
pub mod slices; // slices.rt: one slice
pub mod surfaces; // surfaces.rt: points, surfaces and their diagnostics
pub mod solve; // solve.rt: the solver, one cell of the search
pub mod calibration; // calibration.rt: the fit of one slice
pub mod program; // program.rt: a house file in, its answer out
