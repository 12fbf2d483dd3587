// Demand 3: that cut runs join. No code.
#![tactic(auto)]
