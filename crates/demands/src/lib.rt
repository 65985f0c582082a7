// Theorems only: see specs/, and there Demands.antt first. Nothing here runs, and no code rests on it.
#![tactic(auto)]
