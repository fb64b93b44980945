// The three demands on the repair library, as theorems about its definitions. There is no code here.
#![tactic(auto)]
