// The proof of age, demand 2 over history: stated in specs/ and proved in proofs/. There is no code here.
#![tactic(auto)]
