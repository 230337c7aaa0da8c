// Calls in order, up to the first that is refused: what such a run is, and what holds of every one. No code.
#![tactic(auto)]
