// What the services promise, as theorems about their own definitions: see proofs/. There is no code here.
#![tactic(auto)]
