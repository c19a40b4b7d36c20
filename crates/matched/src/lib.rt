// Document 02 a) over whole histories: what a table does, as a plain list of waiting requests does it. There is no code here.
#![tactic(auto)]
