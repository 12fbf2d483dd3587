// Laws of numbers and lists, with no code.
#![tactic(auto)]
