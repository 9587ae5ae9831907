// No code: document 01's rows as one table, in specs/, and one claim about it, in proofs/.
#![tactic(auto)]
