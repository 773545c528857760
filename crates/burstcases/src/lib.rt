// Worked cases of a burst: stated in specs/ and proved in proofs/ by computation. There is no code here.
#![tactic(auto)]
