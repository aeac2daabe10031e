// Document 02, R-14: what the exported calls do to all that may be lent, with the role of who makes them. The claims stand in specs/.
#![tactic(auto)]
