// A library of specs/ alone: the three demands over what the published calls return and leave.
#![tactic(auto)]
