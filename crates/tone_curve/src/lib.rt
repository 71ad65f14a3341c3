// A library of specs/ alone: the square-root tone curve.
#![tactic(auto)]
