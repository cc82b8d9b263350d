// A store stays a store: theorems over the definitions of docs/STORE.md, in proofs/; there is no code here.
#![tactic(auto)]
