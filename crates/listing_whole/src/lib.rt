// That the listing line by line and piece by piece is the listing, comes to its end, and is the same of rearranged streams: the statements in
// specs/, their proofs in proofs/. There is no code here.

#![tactic(auto)]
