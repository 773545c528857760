// Deciding and a whole call stand as definitions in specs/, and proofs/ computes the worked cases by them. There is no code here.
#![tactic(auto)]
