// An album that comes as tracks, and its conversion in any steps: definitions and laws. No code.
#![tactic(auto)]
