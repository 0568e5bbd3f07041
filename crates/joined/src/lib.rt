// What joins the two products, which know nothing of each other: the judge accepts every log of either register, which is atomic by both
// reports. See specs/ and proofs/.
#![tactic(auto)]
