// Definitions and laws of numbers and lists that two crates or more cite: no code. Nothing here
// knows of displays.
#![tactic(auto)]
