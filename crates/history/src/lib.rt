// Demand 3 over any sequence of calls: the line of a record in specs/, the theorem in proofs/; there is no code here.
#![tactic(auto)]
