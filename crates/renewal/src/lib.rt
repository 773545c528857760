// Gateway and server together, where an access is authorized anew (W11): stated in specs/ and proved in proofs/. There is no code here.
#![tactic(auto)]
