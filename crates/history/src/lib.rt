// The history layer. Its state and operations are in specs/.
#![tactic(auto)]
