// Turns ahead, and who may be overtaken (document 02, No. 1), as definitions (specs/) and laws (proofs/). There is nothing to run here.
#![tactic(auto)]
