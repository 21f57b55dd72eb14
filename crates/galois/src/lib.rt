//! The finite fields of 2^m elements: definitions in specs/, what holds of them in proofs/, and no code.
#![tactic(auto)]
