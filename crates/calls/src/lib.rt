// What the public calls that take a sheet answer, and what they leave in each lent buffer: the definitions are in specs/.
#![tactic(auto)]
