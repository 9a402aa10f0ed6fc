// The price list layer. Its definitions are in specs/.
#![tactic(auto)]
