// Under rule 1 an age is time: how long ago a word came, along the line of its record, in specs/; the theorems in proofs/; there is no code here.
#![tactic(auto)]
