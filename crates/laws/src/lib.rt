// The vocabulary of every contract stands in specs/, and the laws that every proof shares in proofs/. There is no code here.
#![tactic(auto)]
