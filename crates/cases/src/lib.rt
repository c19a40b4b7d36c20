// Document 01's cases stand in proofs/ as one list with a single statement. There is no code here.
#![tactic(auto)]
