// Document 02, R-8: two logs combined. The selection, the answer and the theorems stand in specs/.
#![tactic(auto)]
