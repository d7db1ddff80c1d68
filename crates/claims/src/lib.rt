#![tactic(auto)]

// Theorems only: short statements in specs/, each with the sentence that it keeps, and their proofs in proofs/.
