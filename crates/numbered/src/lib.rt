// The register with its writes numbered, and the invariant of its steps: theory for the protocol's proofs, in proofs/.
#![tactic(auto)]
