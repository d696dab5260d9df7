// The class record of the streams and the answers of the library's calls: definitions in specs/, theorems about them in proofs/. There is
// no code here.

#![tactic(auto)]
