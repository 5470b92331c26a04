// Document 02, No. 10: a whole list of calls on a session's bytes, over the contracts of crate stored: theory only.
#![tactic(auto)]
