// The examples of STORE 18 with a star stand in specs/ as one table, and in proofs/ as one claim; there is no code here.
#![tactic(auto)]
