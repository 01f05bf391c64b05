// The sheet written for a plan: definitions and theorems, in specs/.
#![tactic(auto)]
