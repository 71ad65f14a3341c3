// A library of specs/ alone: the glaze cases of document 01, as one table.
#![tactic(auto)]
