// Laws of the level sheet of a run; no code.
#![tactic(auto)]
