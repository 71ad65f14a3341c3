// A library of specs/ and proofs/ alone: frames that correspond, and what holds of their planes.
#![tactic(auto)]
