// Definitions and theorems about sharing a joint's tension among its bolt rows. No code: see specs/ and proofs/.
#![tactic(auto)]
