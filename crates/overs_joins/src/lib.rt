// Laws of the overs of a run that is cut into calls; no code.
#![tactic(auto)]
