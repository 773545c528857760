// A table that was moved to form 2 answers as before: stated in specs/ and proved in proofs/. There is no code here.
#![tactic(auto)]
