// That the carbon rate of a change of tillage is exact to 2 mg: theorems over the rule and the table of `grams`. There is no code here.
#![tactic(auto)]
