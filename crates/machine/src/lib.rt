// The machine of the store, and the theorem over every list of calls; no code.

#![tactic(auto)]
