// Two books compared, as a whole: theorems over what compare's definitions say of them, in proofs/. There is no code here.
#![tactic(auto)]
