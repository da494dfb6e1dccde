// The rules of a slot with its never-written list: outcomes, what becomes of container and list, histories. The
// definitions are in specs/, the demands are proved in proofs/.
#![tactic(auto)]
