// What one operator is told depends on nothing of the others where requests come in bursts too: stated in specs/ and proved in proofs/. There is no code here.
#![tactic(auto)]
