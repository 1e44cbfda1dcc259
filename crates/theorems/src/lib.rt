// What is proved of the rules' definitions: the demands, each under its own name, and the laws they stand on. No code.
#![tactic(auto)]
