// The model of a move on the record is the reference machine's move. There is nothing to run here.
#![tactic(auto)]
