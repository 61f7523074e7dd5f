// Theorems about the definitions of surface, search and calibrate that no function's proof needs stand in proofs/, so that an edit of those crates does not check them again. There is no code here.
#![tactic(auto)]
