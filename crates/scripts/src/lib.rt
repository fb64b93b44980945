// For scripts, which hold a bench as a buffer of bytes: what such a buffer keeps, and the third demand, as theorems about the calls. There is no code here.
#![tactic(auto)]
