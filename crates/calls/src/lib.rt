// A library of specs/ and proofs/ alone: what each published call answers and leaves.
#![tactic(auto)]
