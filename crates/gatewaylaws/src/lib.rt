// What holds of re-authorization at the gateway: stated in specs/ and proved in proofs/. There is no code here.
#![tactic(auto)]
