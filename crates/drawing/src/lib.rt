// Files as their trees: what a drawn file is, and the file that is laid out from it. Definitions
// and laws, no code.
#![tactic(auto)]
