// Document 01's table of refusals. There is no code here: proofs/ has each line of the table as theorems about what a call
// comes to (the definitions of `host`).
#![tactic(auto)]
