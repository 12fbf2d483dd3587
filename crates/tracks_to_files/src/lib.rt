// From tracks to files: the calls of the plan give every track's WAV file, and one of all. No code.
#![tactic(auto)]
