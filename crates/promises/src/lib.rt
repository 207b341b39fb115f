// The promises of the book reader: theorems over its definitions and contracts, in proofs/. There is no code here.
#![tactic(auto)]
