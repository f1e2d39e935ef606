// No code. The promise about every list of calls (`price_list`) and its proof: cap, floor and total of every map.
#![tactic(auto)]
