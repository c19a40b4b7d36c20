// Number 10, which document 02 takes out: no call answers it, whatever text it is given. There is no code here.
#![tactic(auto)]
