// No code: laws of binary64, and the words that state them.
#![tactic(auto)]
