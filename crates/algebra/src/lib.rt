//! An erasure code as mathematics: definitions in specs/, what holds of them in proofs/, and no code.
#![tactic(auto)]
