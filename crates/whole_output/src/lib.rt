// What each filter puts out for a whole input, as a definition, and why the calls of `filters` put out that. There is no code here.
#![tactic(auto)]
