// What a log means: its operations, their precedence, the total orders that explain it, and what two reports call atomic. Definitions in specs/,
// theorems in proofs/.
#![tactic(auto)]
