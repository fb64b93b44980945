// Filling the marked places of a vector, as a definition and theorems about it. There is no code here.
#![tactic(auto)]
