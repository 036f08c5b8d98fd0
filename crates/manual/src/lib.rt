// What the program says, from the MATPOWER manual and from the form that Clarabel takes. No code.
#![tactic(auto)]
