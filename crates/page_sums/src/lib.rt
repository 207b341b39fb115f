// The tables of the member's page add up to its total, and their bars stand in their scale: theorems over the page's definitions, in proofs/.
// There is no code here.
#![tactic(auto)]
