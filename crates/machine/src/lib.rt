// The plain machine and the run, as definitions and theorems. There is no code here.
#![tactic(auto)]
