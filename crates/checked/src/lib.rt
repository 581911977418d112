// The checked joints of rules 14, as one table about the definitions. No code: see specs/ and proofs/.
#![tactic(auto)]
