// The statements that no public contract has a second answer stand in proofs/, one file for each crate; tools/settle writes them. There is no code here.
#![tactic(auto)]
