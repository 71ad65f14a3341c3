// A library of specs/ alone: the frame file of document 01, what read and write answer, and the theorem that read accepts a file
// exactly when write makes it.
#![tactic(auto)]
