// Each call's promise is tight, and is the step that the history speaks of: theorems in proofs/; there is no code here.
#![tactic(auto)]
