// Laws of the calls for C; no code.
#![tactic(auto)]
