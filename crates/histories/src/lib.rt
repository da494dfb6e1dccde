// Histories of requests on one container: the definitions are in specs/, demand 3 is proved in proofs/.
#![tactic(auto)]
