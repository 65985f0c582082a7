// Theorems only: what the contracts of the public calls say, and that each leaves one outcome. Nothing here runs.
#![tactic(auto)]
