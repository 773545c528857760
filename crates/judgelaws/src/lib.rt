// What holds of judging is stated in specs/ and proved in proofs/. There is no code here.
#![tactic(auto)]
