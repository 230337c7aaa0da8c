// What a frame is, as document 01 has it: definitions and their laws, and no code. How it is painted
// is `paint`.
#![tactic(auto)]
