// Ordered runs, over any record with an order and at any capacity: definitions and laws. There is no code here.
#![tactic(auto)]
