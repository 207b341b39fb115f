// What a program prints in parts is what its definition says of the whole book: theorems over the tools' definitions, in proofs/.
// There is no code here.
#![tactic(auto)]
