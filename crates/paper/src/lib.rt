// The definitions of the rules of docs/STORE.md stand in specs/, their laws in proofs/; there is no code here.
#![tactic(auto)]
