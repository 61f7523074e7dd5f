// The marked examples of document 01 as one theorem stand in proofs/. There is no code here.
#![tactic(auto)]
