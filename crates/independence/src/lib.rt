// Document 02, No. 5: neighbouring moves that may change places, as definitions (specs/) and laws (proofs/). There is nothing to run here.
#![tactic(auto)]
