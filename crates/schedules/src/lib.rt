// Every schedule of a short drill: what the schedules are and what that means, definitions in specs/, theorems in proofs/. The code is the crate
// `turns`.
#![tactic(auto)]
