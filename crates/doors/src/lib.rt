// What a host in C may rely on: a state goes in and out of bytes unchanged, a row of calls through the
// doors of `display` is the row of the display's calls, and no two outcomes meet a door's promise: no code.
#![tactic(auto)]
