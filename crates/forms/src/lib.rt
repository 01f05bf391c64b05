// Rows and the joint sparse form: definitions and theorems, in specs/.
#![tactic(auto)]
