// Levels of an album of tracks: the theorem from its files to the level report; no code.
#![tactic(auto)]
