// What the laser with two heads does, `TwoHeads`, and its plates, `Plates`: definitions only.
#![tactic(auto)]
