// How the record of a reference state changes when a thread is transferred: theory only.
#![tactic(auto)]
