// The data sheet's memory diagram and tables of rights (004), held against the rules. No code.
#![tactic(auto)]
