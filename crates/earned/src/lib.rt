// Demand 3 at work: lists of calls with the count and the sum of each place, computed from the definitions; there is no code here.
#![tactic(auto)]
