// What holds of all bursts: stated in specs/ and proved in proofs/. There is no code here.
#![tactic(auto)]
