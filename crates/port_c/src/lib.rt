// What C and Rust link, out/libport_c.a: each export calls the function of crate port that has its name, and promises what that promises. A static library is no crate for others, so the functions
// themselves stand in port.
#![tactic(auto)]

pub mod abi; // abi.rt: the number of this interface
pub mod elementary; // elementary.rt: square root, hypotenuse, ln, exp
pub mod slices; // slices.rt: one slice
pub mod surfaces; // surfaces.rt: points, surfaces and their diagnostics
pub mod solve; // solve.rt: the solver, one cell of the search
pub mod calibration; // calibration.rt: the fit of one slice
pub mod program; // program.rt: a house file in, its answer out
