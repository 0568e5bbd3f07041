// The first register: its rules and its book in specs/, and in proofs/ that every log of it has an order.
#![tactic(auto)]
