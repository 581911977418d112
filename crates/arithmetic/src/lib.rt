// Definitions and laws of arithmetic that several crates share. No code: see specs/ and proofs/.
#![tactic(auto)]
