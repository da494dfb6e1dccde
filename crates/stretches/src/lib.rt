#![tactic(auto)]

// The never-written list by itself: what it names, its bytes, and what changes to the data make of it. The definitions
// are in specs/, what holds of them in proofs/.
