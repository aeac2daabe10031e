// Document 02, R-1: the format of a log, what its reader answers, and what holds of both. All stands in specs/.
#![tactic(auto)]
