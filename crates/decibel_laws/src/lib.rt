// Laws of whole decibels; no code.
#![tactic(auto)]
