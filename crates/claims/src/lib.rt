// What is claimed of the product, theorem by theorem, each with its demand: proofs/Claims.antt. There is no code here.
#![tactic(auto)]
