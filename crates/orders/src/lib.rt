// Rations in whichever order: theorems over the book's definitions, in proofs/. There is no code here.
#![tactic(auto)]
