#![tactic(auto)]

// The parts of a bank update as steps of the bank, in specs/, and the laws on them and their loops. It has no code.
