// No code: the user's demands as theorems, in proofs/; specs/ has the words that demand 3 adds.
#![tactic(auto)]
