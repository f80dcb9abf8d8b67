// Every outcome goes by the first 512 records of the flow table: specs/Front.antt.
#![tactic(auto)]
