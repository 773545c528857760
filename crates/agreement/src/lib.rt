// The theorem on server and board together is stated in specs/ and proved in proofs/. There is no code here.
#![tactic(auto)]
